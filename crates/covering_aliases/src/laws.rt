//! The laws of the definitions, as clauses of functions that do nothing.

ghost use Rattle.std.specs.Prelude.{◌≡◌, ◌≤◌, ℕ, suc, List, length, map, Result, Some};
ghost use Rattle.environments.specs.Environments.{declared};
ghost use Rattle.go_values.specs.declared.qualified.QName.{QName as Name};
ghost use Rattle.replacement.specs.declared.faults.SetFault.{SetFault};
ghost use Rattle.replacement.specs.Expansion.{Entries, AreNames, alias_right, expanded};
ghost use Rattle.type_sets.specs.Covering.{Test, alias_alike, identical_to};
ghost use Rattle.type_sets.specs.TermTests.{fine, no_cycle};
ghost use Rattle.type_terms.specs.DeclarationRules.{IsProper, IsProperDecl};
ghost use Rattle.type_terms.specs.Declarations.{Decl};
ghost use Rattle.type_terms.specs.Trees.{Tree};
ghost use Rattle.covering_aliases.specs.SoundTypes.{IsSound, Ends};
ghost use Rattle.covering_aliases.specs.Covered.{is_at, is_given};

/// An alias that comes to an end is identical to what its right side is, with the arguments put in.
pub fn an_alias_is_its_right_side()
    ensures { (settle : Tree → Result Tree SetFault) (free : Test) (entries : Entries) (n m : ℕ) (q : Name)
        → Ends entries (suc n) q → n ≤ m → (args : List Tree)
        → alias_alike settle free entries (suc m) q (map (is_at settle free entries (suc m)) args)
        ≡ is_given settle free entries (suc m) (alias_right entries (record { name = q; args = args })) }
{}

/// Once no more right sides of a type stand in one another, more of them change nothing.
pub fn more_right_sides_change_nothing()
    ensures { (settle : Tree → Result Tree SetFault) (free : Test) (entries : Entries) (n : ℕ) (type : Tree)
        → IsSound (Ends entries n) type → is_at settle free entries n type ≡ is_at settle free entries (suc n) type }
{}

/// Where no alias in a type mentions itself, each of them ends: fewer right sides stand in one another than the
/// environment has names.
pub fn what_mentions_itself_nowhere_ends()
    ensures { (entries : Entries) (names : List Name) → AreNames entries names
        → ((q : Name) (decl : Decl) → entries q ≡ Some (declared decl) → IsProperDecl decl)
        → (type : Tree) → IsProper type → no_cycle entries names type ≡ fine
        → IsSound (Ends entries (length names)) type }
{}

/// A type in which no alias mentions itself is identical to what it is expanded to, or has the same fault. Of right sides
/// one more may stand in one another in what it is expanded to.
pub fn a_type_is_what_it_is_expanded_to()
    ensures { (settle : Tree → Result Tree SetFault) (free : Test) (entries : Entries) (names : List Name)
        → AreNames entries names → ((q : Name) (decl : Decl) → entries q ≡ Some (declared decl) → IsProperDecl decl)
        → (type : Tree) → IsProper type → no_cycle entries names type ≡ fine
        → identical_to settle free entries names type
        ≡ is_given settle free entries (suc (length names)) (expanded entries names type) }
{}
