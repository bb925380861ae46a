ghost use Rattle.std.specs.Prelude.{◌≡◌};
ghost use Rattle.source_trees.specs.Words.{word};

use go_syntax::Ident;
use source_places::Place;
use source_trees::text;

/// The bytes of a file of a package, with the number of the file.
#[derive(Clone, Copy)]
pub struct Source<'s> {
    pub file: usize,
    pub bytes: &'s [u8],
}

impl<'s> Source<'s> {
    /// The place of a name.
    #[tactic(auto, unfolding(source_trees::specs::Words::word))]
    pub fn place(self, name: &Ident) -> Place
        ensures { result ≡ record { file = self.entry.file; at = (word self.entry.bytes.now name.now).at } }
    {
        Place {
            file: self.file,
            at: name.start,
        }
    }

    /// The text of a name.
    #[tactic(auto, unfolding(source_trees::specs::Words::word))]
    pub fn text(self, name: &Ident) -> &'s [u8]
        ensures { result.now ≡ (word self.entry.bytes.now name.now).text }
    {
        text(self.bytes, name.start, name.end)
    }
}
