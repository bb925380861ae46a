//! What a walk over pairs decides, whatever is compared.

ghost use Rattle.std.specs.Prelude.{◌≡◌, ◌≢◌, ◌≤◌, ℕ, suc, List, [], length};
ghost use Rattle.std.specs.List.{AllPairs, AllByRecursion};
ghost use Rattle.pair_walk.specs.Walk.{Visit, by_itself, apart, past_limit, broken, walk};
ghost use Rattle.pair_walk.specs.Alike.{Alike, Refuted};

/// What is compared: how a pair is made ready, when two ready pairs are the same, and where a ready pair leads.
pub trait Comparison {
    ghost use Rattle.std.specs.Prelude.{◌≡◌, List, Bool, true, Result, Option};

    ghost Pair: { Type 0 };

    ghost Ready: { Type 0 };

    ghost Fault: { Type 0 };

    ghost settle: { Pair → Result Ready Fault };

    ghost same: { Ready → Ready → Bool };

    /// The pairs of the parts, in order, or none where a demand isn't met.
    ghost steps: { Ready → Result (Option (List Pair)) Fault };

    /// Only equal pairs are the same.
    ghost exact: { (a b : Ready) → same a b ≡ true → a ≡ b };

    /// Equal pairs are the same.
    ghost reflexive: { (a : Ready) → same a a ≡ true };
}

/// Where the walk ends by itself, each pair at which it began is alike down to every depth.
pub fn same_where_it_ends<C: Comparison>()
    ensures { (n : ℕ) (due : List (Visit C.Pair)) → (walk C.settle C.same C.steps n [] due).end ≡ by_itself
        → (depth : ℕ) → AllByRecursion (λ visit. Alike C.settle C.steps depth visit.pair) due }
{}

/// Where it stops at a demand that isn't met or at a fault, a pair at which it began isn't alike: for a demand, down to
/// the depth that is named.
pub fn differs_where_it_stops<C: Comparison>()
    ensures differs { (n : ℕ) (due : List (Visit C.Pair)) (depth : ℕ)
        → (walk C.settle C.same C.steps n [] due).end ≡ apart depth → Refuted C.settle C.steps due depth }
    ensures breaks { (n : ℕ) (due : List (Visit C.Pair)) (fault : C.Fault)
        → (walk C.settle C.same C.steps n [] due).end ≡ broken fault
        → (depth : ℕ) × Refuted C.settle C.steps due depth }
{}

/// No pair is met twice. Past the limit is a walk exactly where it has met one pair more than may be visited.
pub fn each_pair_once<C: Comparison>()
    ensures once { (n : ℕ) (due : List (Visit C.Pair))
        → AllPairs (λ a b. a ≢ b) (walk C.settle C.same C.steps n [] due).pairs }
    ensures past { (n : ℕ) (due : List (Visit C.Pair)) → (walk C.settle C.same C.steps n [] due).end ≡ past_limit
        → length (walk C.settle C.same C.steps n [] due).pairs ≡ suc n }
    ensures within { (n : ℕ) (due : List (Visit C.Pair)) → (walk C.settle C.same C.steps n [] due).end ≢ past_limit
        → length (walk C.settle C.same C.steps n [] due).pairs ≤ n }
{}

/// A walk that isn't past its limit is the same with a greater one.
pub fn more_room<C: Comparison>()
    ensures { (n : ℕ) (due : List (Visit C.Pair)) → (walk C.settle C.same C.steps n [] due).end ≢ past_limit
        → walk C.settle C.same C.steps (suc n) [] due ≡ walk C.settle C.same C.steps n [] due }
{}
