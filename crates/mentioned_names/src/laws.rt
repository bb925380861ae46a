//! The law of the names that are mentioned.

ghost use Rattle.std.specs.Prelude.{◌≡◌};
ghost use Rattle.std.specs.List.{flat_map};
ghost use Rattle.type_terms.specs.Declarations.{Decl};
ghost use Rattle.type_terms.specs.DeclarationRules.{IsProperDecl};
ghost use Rattle.environments.specs.References.{reference_names};
ghost use Rattle.decl_spelling.specs.Sections.{Basics};
ghost use Rattle.file_layout.specs.Walk.{decl_events};
ghost use Rattle.block_walk.specs.Going.{event_names};

/// The names of the descriptors that the whole walk of a declaration ends are those to which the declaration refers, in
/// their order and as often.
pub fn the_walk_meets_the_references()
    ensures { (basics : Basics) (decl : Decl) → IsProperDecl decl
        → flat_map event_names (decl_events basics decl) ≡ reference_names decl }
{}
