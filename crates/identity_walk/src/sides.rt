//! What reads the two sides of a comparison.

ghost use Rattle.std.specs.Prelude.{◌≡◌, List, length, option_map, IfOk};
ghost use Rattle.type_terms.specs.declared.descriptors.Node.{Node};
ghost use Rattle.type_terms.specs.Arenas.{Extends, IsArena};
ghost use Rattle.type_alike.specs.Sides.{Sides as Meant, settle};
ghost use Rattle.type_alike.specs.Sets.{by_sets};
ghost use Rattle.type_demands.specs.NodeDemands.{pair_tree, IsInside};
ghost use Rattle.identity_walk.specs.Walking.{GivesPair, GivesParts};

use replacement::SetFault;
use std::alloc::Global;
use type_demands::Pair;
use type_terms::Arena;

/// Two environments, or one that is read on both sides.
pub trait Sides {
    /// What they have for names, where the arena has these nodes.
    ghost meant: { Self → List Node → Meant };

    /// The nodes that they hold are among these.
    ghost stands: { Self → List Node → Type 0 };

    /// Both types with the right side in place of an alias at the head, the left one first.
    fn settle(&mut self, alloc: Global, arena: &mut Arena, pair: &Pair) -> Result<Pair, SetFault>
        requires stands { stands self.old arena.old.nodes }
        requires there { IsInside (length arena.old.nodes) pair.now }
        ensures exact { GivesPair arena.new.nodes result
            (settle (meant self.old arena.old.nodes) (pair_tree arena.old.nodes pair.now)) }
        ensures meant { meant self.new arena.new.nodes ≡ meant self.old arena.old.nodes }
        ensures extends { Extends arena.old arena.new }
        ensures stands_after { stands self.new arena.new.nodes };

    /// The pairs of signatures of two types that are alike where their type sets are, or none where these differ.
    fn set_parts(
        &mut self,
        alloc: Global,
        arena: &mut Arena,
        pair: &Pair,
    ) -> Result<Option<Vec<Pair>>, SetFault>
        requires stands { stands self.old arena.old.nodes }
        requires there { IsInside (length arena.old.nodes) pair.now }
        ensures exact { GivesParts arena.new.nodes result
            (by_sets (meant self.old arena.old.nodes) (pair_tree arena.old.nodes pair.now)) }
        ensures meant { meant self.new arena.new.nodes ≡ meant self.old arena.old.nodes }
        ensures extends { Extends arena.old arena.new }
        ensures stands_after { stands self.new arena.new.nodes };
}
