//! The law of the order of writing.

ghost use Rattle.std.specs.Prelude.{◌≡◌, ◌≢◌, List, Option};
ghost use Rattle.std.specs.List.{AllPairs, Contains};
ghost use Rattle.go_values.specs.declared.qualified.QName.{QName as Name};
ghost use Rattle.environments.specs.Environments.{Entry};
ghost use Rattle.environments.specs.References.{Reached};
ghost use Rattle.export_order.specs.Order.{in_order};

/// Where each name that is reached is one of some names, exactly the reached ones are queued, each once.
pub fn each_needed_once()
    ensures needed { (entries : Name → Option Entry) (names starts : List Name) (q : Name)
        → Contains (in_order entries names starts) q → Reached entries starts q }
    ensures listed { (entries : Name → Option Entry) (names starts : List Name)
        → ((q : Name) → Reached entries starts q → Contains names q) → (q : Name) → Reached entries starts q
        → Contains (in_order entries names starts) q }
    ensures once { (entries : Name → Option Entry) (names starts : List Name)
        → AllPairs (λ a b. a ≢ b) (in_order entries names starts) }
{}
