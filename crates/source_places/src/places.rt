ghost use Rattle.std.specs.Prelude.{◌≡◌};
ghost use Rattle.source_places.specs.Places.{is_before, earlier};

/// A byte of a file of a package. Files have numbers.
#[derive(Clone, Copy, Debug, PartialEq, Eq)]
pub struct Place {
    pub file: usize,
    pub at: u32,
}

impl Place {
    /// Whether it stands in an earlier file, or before the other in one file.
    pub fn is_before(self, other: Place) -> bool
        ensures { result ≡ is_before self other }
    {
        self.file < other.file || self.file == other.file && self.at < other.at
    }
}

/// What is found at a place, with its cause.
#[derive(Debug, Drop)]
pub struct Found<C> {
    pub place: Place,
    pub cause: C,
}

/// The one that stands first. Of two at one place it is the left one.
pub fn earlier<C: Drop>(left: Option<Found<C>>, right: Option<Found<C>>) -> Option<Found<C>>
    ensures { result ≡ earlier left right }
{
    match (left, right) {
        (None, right) => right,
        (left, None) => left,
        (Some(left), Some(right)) => {
            if right.place.is_before(left.place) {
                Some(right)
            } else {
                Some(left)
            }
        }
    }
}
