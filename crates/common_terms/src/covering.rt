ghost use Rattle.std.specs.Prelude.{◌<◌, List, length, Bool};
ghost use Rattle.common_terms.specs.Comparing.{term_meant};
ghost use Rattle.environments.specs.Kept.{world, Kept};
ghost use Rattle.go_values.specs.declared.qualified.QName.{QName as Name};
ghost use Rattle.interface_opening.specs.Elements.{Term as TermOf};
ghost use Rattle.replacement.specs.Expansion.{Entries};
ghost use Rattle.term_tests.specs.Mentions.{Tells};
ghost use Rattle.type_sets.specs.Covering.{Answer};
ghost use Rattle.type_terms.specs.Trees.{Tree};

use environments::Env;
use replacement::SetFault;
use std::alloc::Global;
use type_terms::{Arena, Term};

/// What tells whether a term covers another one, over an environment.
pub trait Covering<'a, E: Env<'a>> {
    /// Whether the second of two terms covers the first.
    ghost covered: { Entries → List Name → TermOf Tree → TermOf Tree → Answer };

    /// The names that are asked for to tell it.
    ghost asks: { Entries → List Name → TermOf Tree → TermOf Tree → Name → Type 0 };

    /// The types that are opened to tell it.
    ghost opens: { Entries → List Name → TermOf Tree → TermOf Tree → Tree → Type 0 };

    /// Whether the second term covers the first.
    fn covers(
        &self,
        alloc: Global,
        env: &mut E,
        arena: &mut Arena,
        x: &Term,
        y: &Term,
    ) -> Result<bool, SetFault>
        requires stands { E.stands env.old arena.old.nodes }
        requires first { x.now.ty < length arena.old.nodes }
        requires second { y.now.ty < length arena.old.nodes }
        ensures exact { Tells
            (opens (E.entries env.old arena.old.nodes) (E.names env.old) (term_meant arena.old.nodes x.now)
            (term_meant arena.old.nodes y.now)) arena.old (E.full env.new) result
            (covered (E.entries env.old arena.old.nodes) (E.names env.old) (term_meant arena.old.nodes x.now)
            (term_meant arena.old.nodes y.now)) }
        ensures kept { Kept
            (asks (E.entries env.old arena.old.nodes) (E.names env.old) (term_meant arena.old.nodes x.now)
            (term_meant arena.old.nodes y.now))
            (opens (E.entries env.old arena.old.nodes) (E.names env.old) (term_meant arena.old.nodes x.now)
            (term_meant arena.old.nodes y.now))
            (world (E.entries env.old arena.old.nodes) (E.names env.old) (E.packages env.old) (E.asked env.old))
            (world (E.entries env.new arena.new.nodes) (E.names env.new) (E.packages env.new) (E.asked env.new))
            arena.old arena.new }
        ensures stands_after { E.stands env.new arena.new.nodes };
}
