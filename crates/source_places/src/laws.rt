ghost use Rattle.std.specs.Prelude.{◌≡◌, ◌⊎◌, ℕ, List, [], ◌++◌, Option, Some, None};
ghost use Rattle.source_places.specs.declared.places.Found.{Found};
ghost use Rattle.source_places.specs.declared.stages.Refusal.{Refusal};
ghost use Rattle.source_places.specs.Places.{earlier, least, IsLeast};
ghost use Rattle.source_places.specs.Stages.{IsRefusal, AreKept};

/// The codes of rules, in the order in which they count, and the causes that come with their places.
pub trait Codes {
    ghost use Rattle.std.specs.Prelude.{◌≡◌, ℕ, List};
    ghost use Rattle.std.specs.List.{Contains};

    ghost Code: { Type 0 };

    ghost Cause: { Type 0 };

    ghost order: { Code → ℕ };

    ghost codes: { List Code };

    /// All codes are listed.
    ghost whole: { (code : Code) → Contains codes code };

    /// No two codes have one place in the order.
    ghost distinct: { (a b : Code) → order a ≡ order b → a ≡ b };
}

/// The least place is the first one that is listed of those before which none stands. There is one exactly where some
/// are listed.
pub fn each_least<K: Codes>()
    ensures found { (xs : List (Found K.Cause)) (x : Found K.Cause) → least xs ≡ Some x → IsLeast xs x }
    ensures only { (xs : List (Found K.Cause)) (x : Found K.Cause) → IsLeast xs x → least xs ≡ Some x }
    ensures none { (xs : List (Found K.Cause)) → least xs ≡ None → xs ≡ [] }
{}

/// Joining the least places of two lists gives that of both together.
pub fn joining<K: Codes>()
    ensures both { (xs ys : List (Found K.Cause)) → least (xs ++ ys) ≡ earlier (least xs) (least ys) }
    ensures assoc { (a b c : Option (Found K.Cause)) → earlier (earlier a b) c ≡ earlier a (earlier b c) }
    ensures unit { (a : Option (Found K.Cause)) → earlier a None ≡ a }
{}

/// There is one refusal at most, and none where all rules are kept.
pub fn at_most_one_refusal<K: Codes>()
    ensures one { (places : K.Code → List (Found K.Cause)) (r s : Refusal K.Code K.Cause)
        → IsRefusal K.order places r → IsRefusal K.order places s → r ≡ s }
    ensures none { (places : K.Code → List (Found K.Cause)) (r : Refusal K.Code K.Cause)
        → AreKept places → IsRefusal K.order places r → ⊥ }
{}

/// All rules are kept, or there is a refusal.
pub fn some_outcome<K: Codes>()
    ensures { (places : K.Code → List (Found K.Cause)) → AreKept places
        ⊎ ((r : Refusal K.Code K.Cause) × IsRefusal K.order places r) }
{}
