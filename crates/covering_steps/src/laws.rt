//! The law of the definitions, as a clause of a function that does nothing.

ghost use Rattle.std.specs.Prelude.{◌≡◌, List, Result};
ghost use Rattle.go_values.specs.declared.qualified.QName.{QName};
ghost use Rattle.replacement.specs.declared.faults.SetFault.{SetFault};
ghost use Rattle.type_sets.specs.Covering.{Test, alike, settled};
ghost use Rattle.type_terms.specs.Trees.{Tree};
ghost use Rattle.covering_steps.specs.Steps.{step, IsSettling, answered};

/// A type that is no alias, no type parameter and no interface that holds something is identical to another one where
/// that, with no alias at its head, gives what one level wants, by the same test for the parts. So whoever compares may
/// go level by level.
pub fn a_type_covers_level_by_level()
    ensures { (settle : Tree → Result Tree SetFault) (free : Test) (expand : QName → List Test → Test)
        (given : QName → Test) (type : Tree) → IsSettling type → alike settle free expand given type
        ≡ settled settle free (λ x. answered (alike settle free expand given) free x (step type x)) }
{}
