//! The laws of the definitions, as clauses of functions that do nothing.

ghost use Rattle.std.specs.Prelude.{◌≡◌, ◌≢◌, ◌≤◌, ℕ, suc, List, length};
ghost use Rattle.std.specs.List.{AllByRecursion, AllPairs, Contains};
ghost use Rattle.pair_walk.specs.Walk.{by_itself, apart, past_limit, broken};
ghost use Rattle.replacement.specs.declared.faults.SetFault.{SetFault as Fault};
ghost use Rattle.type_terms.specs.Trees.{Tree};
ghost use Rattle.type_alike.specs.Sides.{Sides, Pair, swapped};
ghost use Rattle.type_alike.specs.Identity.{Id, Identical};
ghost use Rattle.type_alike.specs.Comparing.{compared};

/// The comparison decides identity. Where it ends by itself, the types of each pair at which it began are identical.
/// Where it stops since a demand isn't met, those of one of them aren't, down to the depth that it names; where it
/// stops at a fault, down to some depth.
pub fn comparing_decides_identity()
    ensures same { (sides : Sides) (starts : List Pair) → (compared sides starts).end ≡ by_itself
        → AllByRecursion (λ p. Identical sides p.left p.right) starts }
    ensures differ { (sides : Sides) (starts : List Pair) (depth : ℕ) → (compared sides starts).end ≡ apart depth
        → (p : Pair) × Contains starts p × (Id sides depth p.left p.right → ⊥) }
    ensures broken { (sides : Sides) (starts : List Pair) (fault : Fault) → (compared sides starts).end ≡ broken fault
        → (depth : ℕ) × ((p : Pair) × Contains starts p × (Id sides depth p.left p.right → ⊥)) }
{}

/// No pair is compared twice. The comparison ends past its limit only where it has met a 65,537th pair, and else it has
/// met at most 65,536.
pub fn each_pair_is_compared_once()
    ensures once { (sides : Sides) (starts : List Pair) → AllPairs (λ a b. a ≢ b) (compared sides starts).pairs }
    ensures past { (sides : Sides) (starts : List Pair) → (compared sides starts).end ≡ past_limit
        → length (compared sides starts).pairs ≡ 65537 }
    ensures within { (sides : Sides) (starts : List Pair) → (compared sides starts).end ≢ past_limit
        → length (compared sides starts).pairs ≤ 65536 }
{}

/// Identity doesn't depend on which of the two types stands left.
pub fn identity_is_symmetric()
    ensures { (sides : Sides) (depth : ℕ) (a b : Tree) → Id sides depth a b → Id (swapped sides) depth b a }
{}

/// Types that are identical down to a depth are so down to each lesser one.
pub fn a_lesser_depth_demands_less()
    ensures { (sides : Sides) (depth : ℕ) (a b : Tree) → Id sides (suc depth) a b → Id sides depth a b }
{}
