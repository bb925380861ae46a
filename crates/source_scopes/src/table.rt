//! Named things in a row, to be found by their names.

ghost use Rattle.std.specs.Prelude.{◌≡◌, IfOk, map};
ghost use Rattle.source_scopes.specs.Scopes.{position};
ghost use Rattle.source_scopes.specs.Tables.{Finds, name_of};

use std::alloc::{AllocError, Global};
use std::collections::HashMap;
use std::marker::Model;

/// What has a name, with the name.
#[derive(Clone, Copy, Debug, Drop)]
pub struct Item<'s, X> {
    pub name: &'s [u8],
    pub what: X,
}

/// Named things in a row. Of equal names the first counts.
#[derive(Drop)]
pub struct Table<'s, X> {
    items: Vec<Item<'s, X>>,
    numbers: HashMap<&'s [u8], usize>,
}

impl<'s, X> Model for Table<'s, X> {
    ghost use Rattle.std.specs.Prelude.{List, map};
    ghost use Rattle.source_scopes.specs.declared.table.Item.{Item as NamedItem};
    ghost use Rattle.source_scopes.specs.Tables.{Finds, name_of};

    ghost Value = { List (NamedItem X) };

    ghost view = { λ t. t.items.items };

    ghost invariant = { λ t. Finds t.numbers 0 (map name_of t.items.items) };
}

/// The number of the first of each name.
fn numbers_of<'s, X>(
    alloc: Global,
    items: &[Item<'s, X>],
) -> Result<HashMap<&'s [u8], usize>, AllocError>
    ensures { IfOk result (λ numbers. Finds numbers 0 (map name_of items.now)) }
{
    let mut numbers = HashMap::new(alloc);
    let mut left = items.len();
    while left > 0 {
        left -= 1;
        numbers.insert(items[left].name, left)?;
    }
    Ok(numbers)
}

impl<'s, X: Drop> Table<'s, X> {
    /// These things, in their order.
    #[tactic(auto, using(crate::proofs::TableLaws::from_zero))]
    pub fn new(alloc: Global, items: Vec<Item<'s, X>>) -> Result<Table<'s, X>, AllocError>
        ensures { IfOk result (λ table. table ≡ items.entry.items) }
    {
        let numbers = numbers_of(alloc, items.as_slice())?;
        Ok(Table { items, numbers })
    }

    /// The things, in their order.
    pub fn items(&self) -> &[Item<'s, X>]
        ensures { result.now ≡ self.now }
    {
        self.items.as_slice()
    }

    /// The number of the first that has this name.
    #[tactic(auto, using(crate::proofs::TableLaws::from_zero))]
    pub fn number(&self, name: &[u8]) -> Option<usize>
        ensures { result ≡ position name.now (map name_of self.now) }
    {
        self.numbers.get(name).copied()
    }
}
