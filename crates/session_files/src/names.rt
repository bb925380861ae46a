//! The predeclared types to which the names of a session come down.

use crate::session::Session;
use code_tables::Basic;
use decl_reader::Basics;

impl Basics for Session {
    ghost use Rattle.session_files.specs.Names.{comes_down};

    ghost meaning = { λ session. comes_down session };

    /// The name is found by halves. What it comes down to was found when the session was loaded.
    fn basic_of(&self, path: &[u8], name: &[u8]) -> Option<Basic> {
        self.known_basic(path, name)
    }
}
