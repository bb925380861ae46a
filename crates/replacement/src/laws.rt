//! The laws of the definitions, as clauses of functions that do nothing.

ghost use Rattle.std.specs.Prelude.{◌≡◌, ℕ, ◌+◌, List, [], ◌∷◌, length, Ok, None};
ghost use Rattle.std.specs.List.{Contains};
ghost use Rattle.go_values.specs.declared.qualified.QName.{QName as Name};
ghost use Rattle.type_terms.specs.Parts.{Within};
ghost use Rattle.type_terms.specs.Trees.{Tree, parameter, level_of};
ghost use Rattle.replacement.specs.Expansion.{Entries, AreNames, alias_use, expanded_from, expanded};
ghost use Rattle.replacement.specs.Expansion.{underlying};
ghost use Rattle.replacement.specs.Calls.{AsksExpanding, AsksUnder};
ghost use Rattle.replacement.specs.Substitution.{argument, replaced, substituted, level_replaced};

/// A replacement goes by levels: it replaces what stands in a type, and what is no parameter of its own level stays.
pub fn a_replacement_goes_by_levels()
    ensures { (put : Name → Tree) (type : Tree) → replaced put type ≡ level_replaced put (level_of type) }
{}

/// A replacement touches no other parameter: a type with none of these parameters in it stays as it is.
pub fn a_replacement_touches_no_other_parameter()
    ensures { (ps : List Name) (args : List Tree) (type : Tree)
        → ((q : Name) → Within type (parameter q) → Contains ps q → ⊥) → substituted ps args type ≡ type }
{}

/// What a replacement gives depends only on what it puts for the parameters that stand in the type.
pub fn a_replacement_depends_on_its_parameters()
    ensures { (put other : Name → Tree) (type : Tree) → ((q : Name) → Within type (parameter q) → put q ≡ other q)
        → replaced put type ≡ replaced other type }
{}

/// Of equal parameters the first counts.
pub fn the_first_of_equal_parameters_counts()
    ensures { (p : Name) (ps : List Name) (arg : Tree) (args : List Tree) → argument (p ∷ ps) (arg ∷ args) p ≡ arg }
{}

/// An expansion is done where the head is no alias: more names to be met than the environment has change nothing.
pub fn more_names_change_no_expansion()
    ensures { (entries : Entries) (names : List Name) → AreNames entries names → (more : ℕ) (type : Tree)
        → expanded_from entries (length names + more) [] type ≡ expanded entries names type }
{}

/// The head of an expanded type is no alias.
pub fn an_expanded_type_has_no_alias_at_its_head()
    ensures { (entries : Entries) (names : List Name) → AreNames entries names → (type found : Tree)
        → expanded entries names type ≡ Ok found → alias_use found ≡ None }
{}

/// Expansions and underlying types depend only on what stands behind the names that they come to.
pub fn only_names_at_heads_count()
    ensures expanded { (entries other : Entries) (names : List Name) (type : Tree)
        → ((q : Name) → AsksExpanding entries type q → other q ≡ entries q)
        → expanded other names type ≡ expanded entries names type }
    ensures underlying { (entries other : Entries) (names : List Name) (type : Tree)
        → ((q : Name) → AsksUnder entries names type q → other q ≡ entries q)
        → underlying other names type ≡ underlying entries names type }
{}
