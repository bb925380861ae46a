//! What a walk answers, whatever is tested.

ghost use Rattle.std.specs.Prelude.{◌≡◌, List, Bool, true, Result};
ghost use Rattle.std.specs.List.{AllByRecursion};
ghost use Rattle.level_walk.specs.Levels.{passes, Levels};
ghost use Rattle.level_walk.specs.Walk.{ComesTo, Ends};

/// What is tested: how a pair is made ready, when two ready pairs are the same, and where a ready pair leads.
pub trait Tested {
    ghost use Rattle.std.specs.Prelude.{◌≡◌, List, Bool, true, Result, Option};

    ghost Pair: { Type 0 };

    ghost Ready: { Type 0 };

    ghost Fault: { Type 0 };

    ghost settle: { Pair → Result Ready Fault };

    ghost same: { Ready → Ready → Bool };

    /// What holds of the pairs that are tested.
    ghost holds: { Pair → Type 0 };

    /// The pairs of the parts, in order, or none where a demand isn't met.
    ghost steps: { Ready → Result (Option (List Pair)) Fault };

    /// Only equal pairs are the same.
    ghost exact: { (a b : Ready) → same a b ≡ true → a ≡ b };
}

/// A walk that began at pairs of which this holds answers what a test answers that goes level by level there: that each
/// of them passes, or the first that doesn't, or the first fault.
pub fn answers_as_the_test<T: Tested>()
    ensures { (levels : Levels T.settle T.steps T.holds) (starts due : List T.Pair) (met : List T.Ready)
        (answer : Result Bool T.Fault) → AllByRecursion T.holds starts
        → ComesTo T.settle T.same T.steps starts due met → Ends T.settle T.same T.steps due answer
        → passes levels.test starts ≡ answer }
{}
