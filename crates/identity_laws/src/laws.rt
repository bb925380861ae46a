//! The laws of the definitions, as clauses of functions that do nothing.

ghost use Rattle.std.specs.Prelude.{ℕ};
ghost use Rattle.type_terms.specs.Trees.{Tree};
ghost use Rattle.type_alike.specs.Sides.{Side, pair};
ghost use Rattle.type_alike.specs.Identity.{Id};
ghost use Rattle.identity_laws.specs.Equivalence.{between, NoFault, IsSound, CoversItself, CoveringComposes};

/// A type is identical to itself where nothing to which it leads has a fault and terms cover themselves.
pub fn identity_is_reflexive()
    ensures { (side : Side) → CoversItself side → (depth : ℕ) (a : Tree) → IsSound (between side side) depth (pair a a)
        → Id (between side side) depth a a }
{}

/// Types that are identical to a third one, each read on its own side, are identical where nothing to which they lead
/// has a fault and covering of terms composes.
pub fn identity_is_transitive()
    ensures { (left middle right : Side) → CoveringComposes left middle right → (depth : ℕ) (a b c : Tree)
        → Id (between left middle) depth a b → Id (between middle right) depth b c
        → NoFault (between left right) depth (pair a c) → Id (between left right) depth a c }
{}
