//! Going through types that aren't written yet.

ghost use Rattle.std.specs.Prelude.{◌<◌, ◌∷◌, [], ◌++◌, List, map, OnOk};
ghost use Rattle.std.specs.List.{AllByRecursion};
ghost use Rattle.position_codec.specs.Place.{no_place};
ghost use Rattle.type_terms.specs.declared.descriptors.Node.{Node as Descriptor};
ghost use Rattle.type_terms.specs.Denotation.{tree};
ghost use Rattle.type_terms.specs.Trees.{Text};
ghost use Rattle.block_writer.specs.Adding.{meant};
ghost use Rattle.block_walk.specs.Standing.{HasRoom, IsThere, left_steps, AreThere, Goes};
ghost use Rattle.block_walk.specs.Steps.{Step as Todo, say, tell, items_steps};
ghost use Rattle.block_walk.specs.Weights.{steps_weight};

use crate::entering::{enter, is_marked, pile};
use crate::finishing::finish;
use crate::mentions::{put_path, say, say_path};
use crate::section::Section;
use crate::steps::{Step, push_steps};
use block_writer::Item;
use std::alloc::{AllocError, Global};
use type_terms::Arena;

impl Section {
    /// Does what comes before the bytes of these items, which are of one block: mentions their texts and paths, and
    /// writes the descriptors of their types that aren't written yet, each behind those of its parts. Its types are
    /// nodes of what is written. The own path is spelled as the empty text. Takes time and memory for what isn't
    /// written yet, and for its uses, however deep types nest. After a refusal for want of memory some of it may be
    /// done.
    pub fn go_through<'a>(
        &mut self,
        alloc: Global,
        nodes: &'a Arena,
        own: &[u8],
        items: &[Item<'a>],
    ) -> Result<(), AllocError>
        requires there { AllByRecursion (IsThere nodes.now.nodes) items.now }
        requires room { HasRoom nodes.now.nodes self.old }
        ensures { OnOk result (Goes nodes.now.nodes own.now self.old self.new
            (items_steps no_place (map (meant (tree nodes.now.nodes)) items.now)) []) }
    {
        let mut steps = Vec::new(alloc);
        push_steps(items, &mut steps)?;
        let mut left = Vec::new(alloc);
        pile(&mut steps, &mut left)?;
        go(alloc, nodes, own, self, left)
    }
}

/// Does what is left, of which the next stands last.
fn go<'a>(
    alloc: Global,
    nodes: &'a Arena,
    own: &[u8],
    section: &mut Section,
    mut left: Vec<Step<'a>>,
) -> Result<(), AllocError>
    requires there { AreThere nodes.now.nodes left.items }
    requires room { HasRoom nodes.now.nodes section.old }
    ensures { OnOk result
        (Goes nodes.now.nodes own.now section.old section.new (left_steps (tree nodes.now.nodes) left.entry.items) []) }
{
    while let Some(step) = left.pop() {
        do_step(alloc, nodes, own, section, step, &mut left)?;
    }
    Ok(())
}

/// Does a step. A type that is met and isn't written is entered.
fn do_step<'a>(
    alloc: Global,
    nodes: &'a Arena,
    own: &[u8],
    section: &mut Section,
    step: Step<'a>,
    left: &mut Vec<Step<'a>>,
) -> Result<(), AllocError>
    requires there { AreThere nodes.now.nodes (left.old.items ++ step ∷ []) }
    requires room { HasRoom nodes.now.nodes section.old }
    ensures goes { OnOk result (Goes nodes.now.nodes own.now section.old section.new
        (left_steps (tree nodes.now.nodes) (left.old.items ++ step.entry ∷ []))
        (left_steps (tree nodes.now.nodes) left.new.items)) }
    ensures there { OnOk result (AreThere nodes.now.nodes left.new.items) }
    ensures lighter { OnOk result (steps_weight (left_steps (tree nodes.now.nodes) left.new.items)
        < steps_weight (left_steps (tree nodes.now.nodes) (left.old.items ++ step.entry ∷ []))) }
{
    match step {
        Step::Say(text) => mention(section, text),
        Step::Tell(path) => mention_path(alloc, section, own, path),
        Step::Meet(id) => {
            if is_marked(nodes, section, id) {
                Ok(())
            } else {
                enter(alloc, nodes, id, left)
            }
        }
        Step::Finish(id) => finish(alloc, nodes, own, section, id),
    }
}

fn mention(section: &mut Section, text: &[u8]) -> Result<(), AllocError>
    ensures { OnOk result ((nodes : List Descriptor) (own : Text) (left : List Todo) → HasRoom nodes section.old
        → Goes nodes own section.old section.new (say text.now ∷ left) left) }
{
    say(&mut section.strings, text)
}

fn mention_path(
    alloc: Global,
    section: &mut Section,
    own: &[u8],
    path: &[u8],
) -> Result<(), AllocError>
    ensures { OnOk result ((nodes : List Descriptor) (left : List Todo) → HasRoom nodes section.old
        → Goes nodes own.now section.old section.new (tell path.now ∷ left) left) }
{
    say_path(&mut section.strings, own, path)?;
    put_path(alloc, &mut section.paths, path)
}
