//! The laws of the definitions, as clauses of functions that do nothing.

ghost use Rattle.std.specs.Prelude.{◌≡◌, ◌<◌, ◌↔◌, ℕ, List, ◌++◌, Bool, true, length};
ghost use Rattle.std.specs.List.{Contains};
ghost use Rattle.type_terms.specs.declared.descriptors.Node.{Node};
ghost use Rattle.type_terms.specs.Additions.{StandsIn, Covers, AddsOnly, Outgrows};
ghost use Rattle.type_terms.specs.Arenas.{Contents, IsNew, AllBelow, IsArena, Extends};
ghost use Rattle.type_terms.specs.Denotation.{tree};
ghost use Rattle.type_terms.specs.NodeShapes.{node_shape, children};
ghost use Rattle.type_terms.specs.Parts.{parts, tree_size};
ghost use Rattle.type_terms.specs.TreeEquality.{same_tree};
ghost use Rattle.type_terms.specs.Shapes.{retype};
ghost use Rattle.type_terms.specs.Trees.{Tree, level_of, tree_of};

/// A node denotes the same tree however many nodes are added.
pub fn nodes_keep_their_trees()
    ensures { (nodes more : List Node) (number : ℕ) → number < length nodes
        → tree (nodes ++ more) number ≡ tree nodes number }
{}

/// Two numbers of an arena denote the same tree only where they are equal.
pub fn equal_trees_have_equal_numbers()
    ensures { (nodes : List Node) → IsArena nodes → (m n : ℕ) → m < length nodes → n < length nodes
        → tree nodes m ≡ tree nodes n → m ≡ n }
{}

/// A type is larger than each of its parts, so what recurs on parts ends.
pub fn parts_are_smaller()
    ensures { (whole part : Tree) → Contains (parts whole) part → tree_size part < tree_size whole }
{}

/// A test tells whether two types are equal trees.
pub fn equality_of_types_is_tested()
    ensures { (left right : Tree) → (same_tree left right ≡ true) ↔ (left ≡ right) }
{}

/// What two calls add, one after the other, stands in the types in which the additions of each stand.
pub fn additions_join()
    ensures { (old middle new : Contents) (types : List Tree) → AddsOnly types old middle → Extends middle new
        → AddsOnly types middle new → AddsOnly types old new }
{}

/// Where an arena has what stood at entry and additions, and no room for a node that isn't there, it had no room at
/// entry for the types in which these stand.
pub fn a_full_arena_is_outgrown()
    ensures { (old now : Contents) (types : List Tree) → Extends old now → AddsOnly types old now → IsArena now.nodes
        → (node : Node) → AllBelow (length now.nodes) (children node) → IsNew now.nodes node
        → length now.nodes ≡ now.limit → StandsIn types (tree_of (retype (tree now.nodes) (node_shape node)))
        → Outgrows old types }
{}

/// That a later call has no room is a want of room at entry, for the types of all calls.
pub fn want_of_nodes_joins()
    ensures { (old middle : Contents) (types : List Tree) → Extends old middle → AddsOnly types old middle
        → Outgrows middle types → Outgrows old types }
{}

/// What some types outgrow, types that cover them do.
pub fn more_types_outgrow()
    ensures { (arena : Contents) (more fewer : List Tree) → Covers more fewer → Outgrows arena fewer
        → Outgrows arena more }
{}
