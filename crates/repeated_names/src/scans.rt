//! Passes over lists of names, with the first place of each name in a map.

ghost use Rattle.std.specs.Prelude.{◌≡◌, ℕ, List, map, Some, option_map, if◌then◌else◌, IfOk, OnOk};
ghost use Rattle.std.specs.Str.{bytes_eq};
ghost use Rattle.repeated_names.specs.Firsts.{at_first, first, first_of_two};
ghost use Rattle.repeated_names.specs.Names.{Named, named, named_group};
ghost use Rattle.repeated_names.specs.Repeats.{later, repeats, common, clashes, group_clashes};
ghost use Rattle.repeated_names.specs.Tables.{place_in, Knows};

use crate::names::{NameAt, at_first, first_of_two, later};
use source_places::Place;
use std::alloc::{AllocError, Global};
use std::collections::HashMap;

/// The later place of a name and of the first equal one that is known, if there is one.
fn known_again<'a>(places: &HashMap<&'a [u8], Place>, name: NameAt<'a>) -> Option<Place>
    ensures { result ≡ option_map (later name.entry.place) (place_in places.now name.entry.text.now) }
{
    match places.get(name.text) {
        Some(before) => Some(later(name.place, *before)),
        None => None,
    }
}

/// Takes in a name, and gives the later place of it and of the first equal one, if there was one.
fn note<'a>(
    places: &mut HashMap<&'a [u8], Place>,
    name: NameAt<'a>,
) -> Result<Option<Place>, AllocError>
    ensures met { IfOk result (λ x. x ≡ option_map (later name.entry.place) (place_in places.old name.entry.text.now)) }
    ensures noted { OnOk result ((text : List ℕ) → place_in places.new text ≡ if bytes_eq text name.entry.text.now
        then Some (at_first name.entry.place (place_in places.old text)) else place_in places.old text) }
{
    let again = known_again(places, name);
    let before = places.get(name.text).copied();
    places.insert(name.text, at_first(name.place, before))?;
    Ok(again)
}

/// Names that were gone through: the first place of each, and the first one of a repeated name.
#[derive(Drop)]
struct Scanned<'a> {
    places: HashMap<&'a [u8], Place>,
    repeat: Option<Place>,
}

/// Goes through names, from the last one to the first.
fn scan<'a>(alloc: Global, names: &[NameAt<'a>]) -> Result<Scanned<'a>, AllocError>
    ensures knows { IfOk result (λ s. Knows s.places (map named names.now)) }
    ensures repeat { IfOk result (λ s. s.repeat ≡ first (repeats (map named names.now))) }
{
    let mut places = HashMap::new(alloc);
    let mut repeat = None;
    let mut left = names.len();
    while left > 0 {
        left -= 1;
        let again = note(&mut places, names[left])?;
        repeat = first_of_two(again, repeat);
    }
    Ok(Scanned { places, repeat })
}

/// The first place at which one of some names and an equal one of those that are known are both declared.
fn first_common<'a>(places: &HashMap<&'a [u8], Place>, names: &[NameAt<'a>]) -> Option<Place>
    ensures { (all : List Named) → Knows places.now all → result ≡ first (common (map named names.now) all) }
{
    let mut found = None;
    let mut left = names.len();
    while left > 0 {
        left -= 1;
        found = first_of_two(known_again(places, names[left]), found);
    }
    found
}

/// The first place at which a name of a list is declared again. It takes time in proportion to the names.
pub fn first_repeat(alloc: Global, names: &[NameAt<'_>]) -> Result<Option<Place>, AllocError>
    ensures { IfOk result (λ x. x ≡ first (repeats (map named names.now))) }
{
    Ok(scan(alloc, names)?.repeat)
}

/// The first place at which a name of a group is declared again in it, or in the list that is known.
fn first_of_group<'a>(
    alloc: Global,
    places: &HashMap<&'a [u8], Place>,
    group: &[NameAt<'a>],
) -> Result<Option<Place>, AllocError>
    ensures { (all : List Named) → Knows places.now all → IfOk result (λ x. x
        ≡ first_of_two (first (repeats (map named group.now))) (first (common (map named group.now) all))) }
{
    let own = scan(alloc, group)?.repeat;
    Ok(first_of_two(own, first_common(places, group)))
}

/// The first place at which a name is declared again: in a list, in a group, or in a group and the list. It takes time
/// in proportion to all names.
pub fn first_clash<'a>(
    alloc: Global,
    names: &[NameAt<'a>],
    groups: &[Vec<NameAt<'a>>],
) -> Result<Option<Place>, AllocError>
    ensures { IfOk result (λ x. x ≡ first (clashes (map named names.now) (map named_group groups.now))) }
{
    let Scanned { places, repeat } = scan(alloc, names)?;
    let mut found = repeat;
    for group in groups {
        found = first_of_two(found, first_of_group(alloc, &places, group.as_slice())?);
    }
    Ok(found)
}
