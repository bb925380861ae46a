//! What is to be done to write a descriptor or a declaration.

ghost use Rattle.std.specs.Prelude.{◌≡◌, ◌++◌, ℕ, OnOk, map};
ghost use Rattle.position_codec.specs.Place.{no_place, place_of};
ghost use Rattle.type_terms.specs.Trees.{Tree};
ghost use Rattle.file_layout.specs.Bytes.{place_after};
ghost use Rattle.block_writer.specs.Adding.{meant};
ghost use Rattle.block_walk.specs.Steps.{item_steps, items_steps, file_steps};
ghost use Rattle.block_walk.specs.StepsMeant.{at_file, meant_step, AddsSteps};

use block_writer::Item;
use go_values::Pos;
use std::alloc::AllocError;
use type_terms::NodeId;

/// A text or a path is mentioned, a type is met, or it is finished behind its parts.
#[derive(Clone, Copy)]
pub(crate) enum Step<'a> {
    Say(&'a [u8]),
    Tell(&'a [u8]),
    Meet(NodeId),
    Finish(NodeId),
}

/// Adds the steps of items, in the order of writing.
pub(crate) fn push_steps<'a>(items: &[Item<'a>], into: &mut Vec<Step<'a>>) -> Result<(), AllocError>
    ensures { OnOk result (AddsSteps into.old.items into.new.items
        (λ type. items_steps no_place (map (meant type) items.now))) }
{
    let mut file: &'a [u8] = &[];
    for item in items {
        push_step(file, item, into)?;
        file = file_after(file, item);
    }
    Ok(())
}

/// Adds the step of an item, behind a position of this file.
fn push_step<'a>(
    file: &'a [u8],
    item: &Item<'a>,
    into: &mut Vec<Step<'a>>,
) -> Result<(), AllocError>
    ensures { OnOk result (AddsSteps into.old.items into.new.items
        (λ type. item_steps (at_file file.now) (meant type item.now))) }
{
    match item {
        Item::Number(_) | Item::Flag(_) => Ok(()),
        Item::Text(text) => into.extend_from_slice(&[Step::Say(*text)]),
        Item::Path(path) => into.extend_from_slice(&[Step::Tell(*path)]),
        Item::Position(pos) => push_file(file, file_of(*pos), into),
        Item::NoPosition => push_file(file, &[], into),
        Item::Type(id) => into.extend_from_slice(&[Step::Meet(*id)]),
    }
}

/// A file is named where it is another one.
fn push_file<'a>(
    before: &'a [u8],
    now: &'a [u8],
    into: &mut Vec<Step<'a>>,
) -> Result<(), AllocError>
    ensures { OnOk result (AddsSteps into.old.items into.new.items (λ type. file_steps before.now now.now)) }
{
    if before == now {
        return Ok(());
    }
    into.extend_from_slice(&[Step::Say(now)])
}

/// The file of a position, which is empty where there is none.
fn file_of(pos: &Pos) -> &[u8]
    ensures { result.now ≡ (place_of pos.now).file }
{
    match pos {
        Pos::Nowhere => &[],
        Pos::At { file, .. } => file.as_slice(),
    }
}

/// The file of the last position, behind an item.
fn file_after<'a>(file: &'a [u8], item: &Item<'a>) -> &'a [u8]
    ensures { (type : ℕ → Tree) → result.now ≡ (place_after (at_file file.now) (meant type item.now)).file }
{
    match item {
        Item::Position(pos) => file_of(*pos),
        Item::NoPosition => &[],
        Item::Number(_) | Item::Flag(_) | Item::Text(_) | Item::Path(_) | Item::Type(_) => file,
    }
}
