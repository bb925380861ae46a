//! That a table is the only one that explains itself, and how one is filled.

ghost use Rattle.std.specs.Prelude.{◌≡◌, ◌<◌, ◌+◌, ℕ, List, Some, slice_get, length};
ghost use Rattle.explained_tables.specs.Tables.{Explained, IsRanked, IsOrder, Reached, Fills};

/// What stands in a table, what one step makes of an entry, and which other entries that takes.
pub trait Table {
    ghost use Rattle.std.specs.Prelude.{ℕ};
    ghost use Rattle.explained_tables.specs.Tables.{IsLocal};

    ghost Entry: { Type 0 };

    ghost step: { (ℕ → Entry) → ℕ → Entry };

    ghost needs: { ℕ → ℕ → Type 0 };

    /// A step looks at no other entries.
    ghost local: { IsLocal step needs };
}

/// Where no entry needs itself, two tables that explain themselves agree.
pub fn one_table<T: Table>()
    ensures { (count : ℕ) (rank : ℕ → ℕ) (f g : ℕ → T.Entry) → IsRanked T.needs count rank
        → Explained T.step count f → Explained T.step count g → (i : ℕ) → i < count → f i ≡ g i }
{}

/// A table that is filled in an order in which each entry needs earlier ones alone is explained as far as it is filled:
/// none of it at first, and one more with each entry.
pub fn filled_in_order<T: Table>()
    ensures begins { (order : List ℕ) (table : ℕ → T.Entry) → Reached T.step order 0 table }
    ensures goes_on { (order : List ℕ) (k i : ℕ) (before after : ℕ → T.Entry) → IsOrder T.needs order
        → slice_get order k ≡ Some i → Reached T.step order k before → Fills T.step i before after
        → Reached T.step order (k + 1) after }
{}

/// A table that is filled along an order that has all entries explains itself.
pub fn reached_all<T: Table>()
    ensures { (order : List ℕ) (count : ℕ) (table : ℕ → T.Entry)
        → ((i : ℕ) → i < count → (k : ℕ) × (k < length order) × (slice_get order k ≡ Some i))
        → Reached T.step order (length order) table → Explained T.step count table }
{}
