ghost use Rattle.std.specs.Prelude.{◌≡◌};
ghost use Rattle.repeated_names.specs.Firsts.{at_first, first_of_two};
ghost use Rattle.repeated_names.specs.Repeats.{later};

use source_places::Place;

/// A name at its place.
#[derive(Clone, Copy, Debug)]
pub struct NameAt<'a> {
    pub text: &'a [u8],
    pub place: Place,
}

/// The one of two places that stands behind.
pub(crate) fn later(left: Place, right: Place) -> Place
    ensures { result ≡ later left right }
{
    if left.is_before(right) { right } else { left }
}

/// The place that stands first, of one and another if there is one.
pub(crate) fn at_first(place: Place, other: Option<Place>) -> Place
    ensures { result ≡ at_first place other }
{
    match other {
        None => place,
        Some(other) => { if other.is_before(place) { other } else { place } }
    }
}

/// The place that stands first, of those that are there.
pub fn first_of_two(left: Option<Place>, right: Option<Place>) -> Option<Place>
    ensures { result ≡ first_of_two left right }
{
    match left {
        None => right,
        Some(place) => Some(at_first(place, right)),
    }
}
