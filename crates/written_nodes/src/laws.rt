//! The law of what was made.

ghost use Rattle.type_terms.specs.Arenas.{Contents, Extends};
ghost use Rattle.written_nodes.specs.Pools.{Pool, IsPoolOf};

/// Nodes that were made for those of an arena are nodes for it however many nodes are added to it.
pub fn a_longer_arena_keeps_what_was_made()
    ensures { (old new : Contents) (pool : Pool) → Extends old new → IsPoolOf old.nodes pool → IsPoolOf new.nodes pool }
{}
