//! Trying a way.

ghost use Rattle.std.specs.Prelude.{◌≡◌};

use crate::cursor::Cursor;

impl<'a> Cursor<'a> {
    /// A second cursor at the same place, by which a way can be tried that may end in a fault.
    pub fn fork(&self) -> Cursor<'a>
        ensures { result ≡ self.now }
    {
        Cursor {
            rest: self.rest,
            end: self.end,
        }
    }
}
