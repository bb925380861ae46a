//! The laws of the definitions, as clauses of functions that do nothing.

ghost use Rattle.std.specs.Prelude.{◌≡◌, ◌↔◌, List, Some};
ghost use Rattle.std.specs.List.{Contains};
ghost use Rattle.code_tables.specs.declared.predeclared.Basic.{Basic};
ghost use Rattle.go_values.specs.declared.qualified.QName.{QName as Name};
ghost use Rattle.type_terms.specs.Trees.{Tree};
ghost use Rattle.basic_types.specs.BasicTypes.{Entries, side_behind, ComesDownTo, IsReached, basic_type};

/// A type comes down to one basic type at the most.
pub fn one_basic_type()
    ensures { (entries : Entries) (type : Tree) (a b : Basic) → ComesDownTo entries a type
        → ComesDownTo entries b type → a ≡ b }
{}

/// Where a type comes down to a basic type, a declaration of a type stands behind each name that is reached.
pub fn a_basic_type_meets_no_fault()
    ensures { (entries : Entries) (type : Tree) (basic : Basic) → ComesDownTo entries basic type
        → (q : Name) → IsReached entries type q → (side : Tree) × (side_behind (entries q) ≡ Some side) }
{}

/// As many heads are enough as there are names that are reached and lead on: more would come to a name again, and go
/// round for ever.
pub fn as_many_heads_as_names_are_enough()
    ensures { (entries : Entries) (names : List Name) (type : Tree) (basic : Basic)
        → ((q : Name) (side : Tree) → IsReached entries type q → side_behind (entries q) ≡ Some side
        → Contains names q)
        → (basic_type entries names type ≡ Some basic) ↔ ComesDownTo entries basic type }
{}
