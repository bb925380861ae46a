//! The laws of the definitions, as clauses of functions that do nothing.

ghost use Rattle.std.specs.Prelude.{◌≡◌, ◌++◌, ◌∷◌, [], ℕ, List, Some, true, false, slice_get};
ghost use Rattle.std.specs.List.{flat_map};
ghost use Rattle.type_terms.specs.Parts.{parts};
ghost use Rattle.type_terms.specs.Declarations.{Decl};
ghost use Rattle.type_terms.specs.Trees.{Text, Tree};
ghost use Rattle.decl_text.specs.DeclText.{numbers_of};
ghost use Rattle.decl_text.specs.Mentions.{RefersTo};
ghost use Rattle.decl_text.specs.Numbers.{number_of, line_of, goes_by_name, is_settled, finish_all, number_all};
ghost use Rattle.decl_text.specs.Walks.{walk};

/// A walk goes through the parts of a type, in reading order, and then finishes the type.
pub fn a_walk_finishes_parts_first()
    ensures { (type : Tree) → walk type ≡ flat_map walk (parts type) ++ type ∷ [] }
{}

/// A walk through a type that was finished adds nothing.
pub fn a_finished_type_adds_nothing()
    ensures { (types : List Tree) (type : Tree) → is_settled (number_all types).types type ≡ true
        → finish_all (number_all types) (walk type) ≡ number_all types }
{}

/// The line of a number is the line of each type that has the number.
pub fn types_of_one_number_have_one_line()
    ensures { (types : List Tree) (type : Tree) (number : ℕ) → number_of (number_all types).types type ≡ Some number
        → slice_get (number_all types).lines number ≡ Some (line_of (number_all types).types type) }
{}

/// Each type that the text of a declaration refers to goes by its name or has a number, so no reference is to a number
/// that wasn't given.
pub fn each_type_referred_to_has_a_number()
    ensures { (decl : Decl) (type : Tree) → RefersTo decl type → goes_by_name type ≡ false
        → (number : ℕ) × (number_of (numbers_of decl).types type ≡ Some number) }
{}

/// Each line of a number is that of a type that the text refers to.
pub fn each_line_is_of_a_type_referred_to()
    ensures { (decl : Decl) (number : ℕ) (line : Text) → slice_get (numbers_of decl).lines number ≡ Some line
        → (type : Tree) × RefersTo decl type × (number_of (numbers_of decl).types type ≡ Some number)
        × (line ≡ line_of (numbers_of decl).types type) }
{}
