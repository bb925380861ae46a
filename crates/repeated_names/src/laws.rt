ghost use Rattle.std.specs.Prelude.{◌≡◌, List, []};
ghost use Rattle.repeated_names.specs.Names.{Named};
ghost use Rattle.repeated_names.specs.Repeats.{repeats, AllDiffer};

/// A list of names has no place of a repeated one exactly where no two of them are equal.
pub fn no_repeats()
    ensures differ { (names : List Named) → repeats names ≡ [] → AllDiffer names }
    ensures none { (names : List Named) → AllDiffer names → repeats names ≡ [] }
{}
