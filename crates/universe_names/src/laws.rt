ghost use Rattle.std.specs.Prelude.{◌≡◌, ℕ, List, Some};
ghost use Rattle.std.specs.List.{Contains};
ghost use Rattle.universe_names.specs.Universe.{Entry, standing_for, universe};
ghost use Rattle.universe_names.specs.declared.names.Predeclared.{Predeclared};

/// Each name that is listed stands for what is listed with it, and no other name stands for anything.
pub fn as_listed()
    ensures each { (e : Entry) → Contains universe e → standing_for e.name universe ≡ Some e.meaning }
    ensures only { (name : List ℕ) (meaning : Predeclared) → standing_for name universe ≡ Some meaning
        → Contains universe (record { name = name; meaning = meaning }) }
{}
