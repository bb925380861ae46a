ghost use Rattle.std.specs.Prelude.{◌≡◌, ◌⊎◌, List};
ghost use Rattle.source_places.specs.declared.places.Found.{Found};
ghost use Rattle.source_places.specs.declared.stages.Refusal.{Refusal};
ghost use Rattle.source_places.specs.Stages.{IsRefusal, AreKept};
ghost use Rattle.refusal_codes.specs.declared.codes.Code.{Code};
ghost use Rattle.refusal_codes.specs.Codes.{order_of};

/// Whatever places the rules give, and with whatever causes, all of them are kept, or there is one refusal, and never
/// both.
pub fn one_outcome<C>()
    ensures one { (places : Code → List (Found C)) (r s : Refusal Code C)
        → IsRefusal order_of places r → IsRefusal order_of places s → r ≡ s }
    ensures none { (places : Code → List (Found C)) (r : Refusal Code C)
        → AreKept places → IsRefusal order_of places r → ⊥ }
    ensures some { (places : Code → List (Found C)) → AreKept places
        ⊎ ((r : Refusal Code C) × IsRefusal order_of places r) }
{}
