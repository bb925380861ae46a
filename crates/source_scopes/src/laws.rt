ghost use Rattle.std.specs.Prelude.{◌≡◌, ℕ, List, Some, None, codes};
ghost use Rattle.code_tables.specs.declared.predeclared.Basic.TheVariants as basic;
ghost use Rattle.universe_names.specs.declared.names.Predeclared.TheVariants.{Basic};
ghost use Rattle.source_scopes.specs.Scopes.{Scopes, Means, meaning, resolved_by};
ghost use Rattle.source_scopes.specs.declared.looking.Resolution.TheVariants.{Unknown, NoPackage, Own, Foreign};
ghost use Rattle.source_scopes.specs.declared.looking.Meaning.{Meaning};
ghost use Rattle.source_scopes.specs.declared.looking.Meaning.TheVariants.{Parameter as a_parameter};
ghost use Rattle.source_scopes.specs.declared.looking.Meaning.TheVariants.{Object as an_object, Package as a_package};
ghost use Rattle.source_scopes.specs.declared.looking.Meaning.TheVariants.{Predeclared as predeclared};
ghost use Rattle.source_scopes.specs.Rows.{word_of, example, offers};

/// A name means one thing at most, and this is what is found by looking for it from the innermost scope outwards.
pub fn one_meaning()
    ensures one { (s : Scopes) (text : List ℕ) (m n : Meaning) → Means s text m → Means s text n → m ≡ n }
    ensures found { (s : Scopes) (text : List ℕ) (m : Meaning) → meaning s text ≡ Some m → Means s text m }
    ensures only { (s : Scopes) (text : List ℕ) (m : Meaning) → Means s text m → meaning s text ≡ Some m }
{}

/// What names mean in an example.
pub fn worked_rows()
    ensures parameter { meaning example (codes "P") ≡ Some (a_parameter 0) }
    ensures first_of_two { meaning example (codes "T") ≡ Some (an_object 0) }
    ensures hides_universe { meaning example (codes "int") ≡ Some (an_object 2) }
    ensures import { meaning example (codes "m") ≡ Some (a_package 0) }
    ensures universe { meaning example (codes "string") ≡ Some (predeclared (Basic basic.String)) }
    ensures blank { meaning example (codes "_") ≡ None }
    ensures unknown { meaning example (codes "x") ≡ None }
    ensures offered { resolved_by offers example (Some (word_of (codes "m"))) (word_of (codes "Pi")) ≡ Foreign 0 }
    ensures not_offered { resolved_by offers example (Some (word_of (codes "m"))) (word_of (codes "E")) ≡ Unknown }
    ensures no_package { resolved_by offers example (Some (word_of (codes "T"))) (word_of (codes "Pi")) ≡ NoPackage }
    ensures pointer { resolved_by offers example (Some (word_of (codes "u"))) (word_of (codes "Pointer"))
        ≡ Own (predeclared (Basic basic.UnsafePointer)) }
{}
