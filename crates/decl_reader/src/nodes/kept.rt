//! What stands in a declaration, first with types as numbers, then with types as nodes.

ghost use Rattle.std.specs.Prelude.{◌≡◌, length, map, IfOk, IfErr, IsErrOf};
ghost use Rattle.std.specs.List.{flat_map};
ghost use Rattle.type_terms.specs.Additions.{AddsOnly, Outgrows};
ghost use Rattle.type_terms.specs.Arenas.{AllBelow, Extends};
ghost use Rattle.type_terms.specs.Denotation.{tree};
ghost use Rattle.decl_reader.specs.Faults.{IsNoFault};
ghost use Rattle.decl_reader.specs.Blocks.{AllInside};
ghost use Rattle.decl_reader.specs.Meant.{named_by};

use crate::fault::DeclFault;
use crate::table::Table;
use go_values::Sequence;
use std::alloc::Global;
use type_terms::Arena;

/// What stands in a block, with types as numbers. It is kept with types as nodes.
pub(crate) trait Kept: Drop {
    ghost use Rattle.std.specs.Prelude.{◌≡◌, ℕ, List, length, map, IfOk, IfErr, IsErrOf};
    ghost use Rattle.std.specs.List.{AllByRecursion};
    ghost use Rattle.type_terms.specs.Additions.{AddsOnly, Outgrows};
    ghost use Rattle.type_terms.specs.Arenas.{AllBelow, Extends};
    ghost use Rattle.type_terms.specs.Denotation.{tree};
    ghost use Rattle.type_terms.specs.ShapeLaws.{Agree};
    ghost use Rattle.decl_reader.specs.Faults.{IsNoFault};
    ghost use Rattle.decl_reader.specs.Blocks.{AllInside};
    ghost use Rattle.decl_reader.specs.Meant.{Named, named_by};

    type Item: Drop;

    /// Either of the two, flat, and the types that stand in it, in reading order.
    ghost Shape: { Type 0 };

    ghost shape: { Self → Shape };

    ghost item_shape: { Self.Item → Shape };

    ghost types: { Shape → List ℕ };

    /// What is meant, where trees stand for the numbers.
    ghost Meaning: { Type 0 };

    ghost meant: { Named → Shape → Meaning };

    /// The same with types as nodes, which are added where they aren't there.
    fn with_nodes(
        self,
        alloc: Global,
        version: u8,
        table: &Table,
        arena: &mut Arena,
    ) -> Result<Self::Item, DeclFault>
        requires inside { AllInside (length arena.old.nodes) table.now }
        ensures meant { IfOk result
            (λ item. meant (tree arena.new.nodes) (item_shape item)
            ≡ meant (named_by version arena.old.nodes table.now) (shape self)) }
        ensures within { IfOk result (λ item. AllBelow (length arena.new.nodes) (types (item_shape item))) }
        ensures extends { Extends arena.old arena.new }
        ensures only_memory { IfErr result IsNoFault }
        ensures adds { AddsOnly (map (named_by version arena.old.nodes table.now) (types (shape self)))
            arena.old arena.new }
        ensures outgrown { IsErrOf result DeclFault.Nodes
            → Outgrows arena.old (map (named_by version arena.old.nodes table.now) (types (shape self))) }
        ensures full { IsErrOf result DeclFault.Nodes → length arena.new.nodes ≡ arena.new.limit };

    /// The types decide what is meant.
    ghost agrees: { (f g : Named) (x : Shape) → AllByRecursion (Agree f g) (types x) → meant f x ≡ meant g x };
}

/// The same of all of them, in order.
pub(crate) fn all_with_nodes<T: Kept>(
    alloc: Global,
    parts: Vec<T>,
    version: u8,
    table: &Table,
    arena: &mut Arena,
) -> Result<Vec<T::Item>, DeclFault>
    requires inside { AllInside (length arena.old.nodes) table.now }
    ensures meant { IfOk result
        (λ kept. map (T.meant (tree arena.new.nodes)) (map T.item_shape kept.items)
        ≡ map (T.meant (named_by version arena.old.nodes table.now)) (map T.shape parts.items)) }
    ensures within { IfOk result
        (λ kept. AllBelow (length arena.new.nodes) (flat_map T.types (map T.item_shape kept.items))) }
    ensures extends { Extends arena.old arena.new }
    ensures only_memory { IfErr result IsNoFault }
    ensures adds { AddsOnly
        (map (named_by version arena.old.nodes table.now) (flat_map T.types (map T.shape parts.items)))
        arena.old arena.new }
    ensures outgrown { IsErrOf result DeclFault.Nodes → Outgrows arena.old
        (map (named_by version arena.old.nodes table.now) (flat_map T.types (map T.shape parts.items))) }
    ensures full { IsErrOf result DeclFault.Nodes → length arena.new.nodes ≡ arena.new.limit }
{
    let mut kept = Vec::with_capacity(alloc, parts.len())?;
    for part in parts {
        let item = part.with_nodes(alloc, version, table, arena)?;
        kept.push(item)?;
    }
    Ok(kept)
}

impl<T: Kept> Kept for Vec<T> {
    ghost use Rattle.std.specs.Prelude.{List, map};
    ghost use Rattle.std.specs.List.{flat_map};
    ghost use Rattle.decl_reader.specs.Meant.{list_meant, list_agrees};

    type Item = Sequence<T::Item>;

    ghost Shape = { List T.Shape };

    ghost shape = { λ items. map T.shape items.items };

    ghost item_shape = { λ items. map T.item_shape items };

    ghost types = { flat_map T.types };

    ghost Meaning = { List T.Meaning };

    ghost meant = { list_meant T.meant };

    ghost agrees = { list_agrees T.meant T.types T.agrees };

    fn with_nodes(
        self,
        alloc: Global,
        version: u8,
        table: &Table,
        arena: &mut Arena,
    ) -> Result<Sequence<T::Item>, DeclFault> {
        let kept = all_with_nodes(alloc, self, version, table, arena)?;
        Ok(Sequence::from_items(kept))
    }
}

/// The first, and then the second.
impl<A: Kept, B: Kept> Kept for (A, B) {
    ghost use Rattle.std.specs.Prelude.{◌++◌};
    ghost use Rattle.decl_reader.specs.Meant.{both_meant, both_agree};

    type Item = (A::Item, B::Item);

    ghost Shape = { A.Shape × B.Shape };

    ghost shape = { λ both. (A.shape both.0, B.shape both.1) };

    ghost item_shape = { λ both. (A.item_shape both.0, B.item_shape both.1) };

    ghost types = { λ both. A.types both.0 ++ B.types both.1 };

    ghost Meaning = { A.Meaning × B.Meaning };

    ghost meant = { both_meant A.meant B.meant };

    ghost agrees = { both_agree A.meant A.types A.agrees B.meant B.types B.agrees };

    fn with_nodes(
        self,
        alloc: Global,
        version: u8,
        table: &Table,
        arena: &mut Arena,
    ) -> Result<(A::Item, B::Item), DeclFault> {
        let (first, second) = self;
        let first = first.with_nodes(alloc, version, table, arena)?;
        let second = second.with_nodes(alloc, version, table, arena)?;
        Ok((first, second))
    }
}
