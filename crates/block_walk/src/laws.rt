//! The law of the walk.

ghost use Rattle.std.specs.Prelude.{◌≡◌, ℕ, List};
ghost use Rattle.std.specs.List.{flat_map};
ghost use Rattle.type_terms.specs.Trees.{Text};
ghost use Rattle.type_terms.specs.Declarations.{Decl};
ghost use Rattle.decl_spelling.specs.Sections.{Basics};
ghost use Rattle.file_layout.specs.Layout.{said};
ghost use Rattle.file_layout.specs.Places.{happen_all};
ghost use Rattle.file_layout.specs.Walk.{Event, decl_events, event_texts, event_paths};
ghost use Rattle.block_walk.specs.Steps.{decl_steps};
ghost use Rattle.block_walk.specs.Going.{
  Out,
  nothing_out,
  with_paths,
  with_names,
  event_names,
  with_events,
  after,
  IsClosed,
};

/// The steps of a declaration, which skip what was written, come to what the events of the whole walk do; and again
/// each type that was written was gone through.
pub fn what_was_written_is_skipped()
    ensures same { (own : Text) (offset : Text → ℕ) (basics : Basics) (out : Out) (decl : Decl)
        → IsClosed own offset out
        → after own offset out (decl_steps basics decl) ≡ with_events own offset out (decl_events basics decl) }
    ensures closed { (own : Text) (offset : Text → ℕ) (basics : Basics) (out : Out) (decl : Decl)
        → IsClosed own offset out → IsClosed own offset (after own offset out (decl_steps basics decl)) }
    ensures begins { (own : Text) (offset : Text → ℕ) → IsClosed own offset nothing_out }
{}

/// What the whole walk comes to, part by part: the texts, paths and names in the order of their first mention, and the
/// data section as it is laid out.
pub fn the_whole_walk_is_the_layout()
    ensures texts { (own : Text) (offset : Text → ℕ) (out : Out) (events : List Event)
        → (with_events own offset out events).texts ≡ said out.texts (flat_map (event_texts own) events) }
    ensures paths { (own : Text) (offset : Text → ℕ) (out : Out) (events : List Event)
        → (with_events own offset out events).paths ≡ with_paths out.paths (flat_map event_paths events) }
    ensures names { (own : Text) (offset : Text → ℕ) (out : Out) (events : List Event)
        → (with_events own offset out events).names ≡ with_names out.names (flat_map event_names events) }
    ensures written { (own : Text) (offset : Text → ℕ) (out : Out) (events : List Event)
        → (with_events own offset out events).written ≡ happen_all own offset out.written events }
{}
