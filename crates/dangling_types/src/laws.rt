//! What the first reference that dangles is.

ghost use Rattle.std.specs.Prelude.{◌≡◌, List, Option};
ghost use Rattle.type_terms.specs.Declarations.{Decl};
ghost use Rattle.environments.specs.declared.mentions.Reference.{Reference};
ghost use Rattle.dangling_references.specs.Dangling.{Entries, IsFirstIfAny, IsFirstOf};
ghost use Rattle.dangling_types.specs.FirstDangling.{first_dangling, dangling_in};

/// That the function gives the first of some references that dangles, or that none does; and for a declaration the
/// same as in the order of their first mention.
pub fn the_first_that_dangles()
    ensures is { (entries : Entries) (all : List Reference)
        → IsFirstIfAny entries all (first_dangling entries all) }
    ensures mentioned { (entries : Entries) (decl : Decl) (found : Option Reference) → IsFirstOf entries decl found
        → found ≡ dangling_in entries decl }
{}
