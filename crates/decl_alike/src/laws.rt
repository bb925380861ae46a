//! The laws of the definitions, as clauses of functions that do nothing.

ghost use Rattle.std.specs.Prelude.{◌≡◌, ℕ, suc, true, false, IsOkAnd};
ghost use Rattle.std.specs.List.{AllByRecursion, Contains};
ghost use Rattle.go_values.specs.declared.qualified.QName.{QName as Name};
ghost use Rattle.pair_walk.specs.Walk.{by_itself, apart};
ghost use Rattle.replacement.specs.Expansion.{known};
ghost use Rattle.type_alike.specs.Sides.{Sides, Pair};
ghost use Rattle.type_alike.specs.Identity.{Id, Identical};
ghost use Rattle.decl_alike.specs.SameDecl.{same_head, decl_pairs, name_compared};

use type_alike::comparing_decides_identity;

/// Where the comparison of two declarations ends by itself both are there, their heads are the same, and all compared
/// types are identical. Where it differs at depth 0, both are there and their heads aren't the same; where it differs
/// deeper, two compared types aren't identical down to that depth.
pub fn comparing_declarations_decides()
    ensures same { (sides : Sides) (q : Name) → name_compared sides q ≡ by_itself
        → IsOkAnd (known (sides.left.entries q) q) (λ x. IsOkAnd (known (sides.right.entries q) q) (λ y.
        (same_head x y ≡ true) × AllByRecursion (λ p. Identical sides p.left p.right) (decl_pairs x y))) }
    ensures heads { (sides : Sides) (q : Name) → name_compared sides q ≡ apart 0
        → IsOkAnd (known (sides.left.entries q) q) (λ x. IsOkAnd (known (sides.right.entries q) q) (λ y.
        same_head x y ≡ false)) }
    ensures types { (sides : Sides) (q : Name) (depth : ℕ) → name_compared sides q ≡ apart (suc depth)
        → IsOkAnd (known (sides.left.entries q) q) (λ x. IsOkAnd (known (sides.right.entries q) q) (λ y.
        (p : Pair) × Contains (decl_pairs x y) p × (Id sides (suc depth) p.left p.right → ⊥))) }
{
    comparing_decides_identity();
}
