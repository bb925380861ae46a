//! Laws of what names are, each the contract of a function that does nothing.

ghost use Rattle.std.specs.Prelude.{◌≡◌, ◌⊎◌, ◌↔◌, ℕ, List, Some, Result};
ghost use Rattle.outside.specs.Files.{Held};
ghost use Rattle.code_tables.specs.declared.predeclared.Basic.{Basic};
ghost use Rattle.session_files.specs.Sessions.{Opened, AreSound, IsUnknown};
ghost use Rattle.session_files.specs.Names.{ComesDownTo, comes_down};
ghost use Rattle.session_files.specs.Loading.{Word, Refusal, Loads, HoldBytes};
ghost use Rattle.session_files.specs.Answers.{Outcome, HasOutcome, decls};

/// No file lists a name, or it has one outcome, a declaration or a first fault, in the first file that lists it.
pub fn one_answer()
    ensures either { (files : List Opened) → AreSound files → (path name : List ℕ) → IsUnknown files path name
        ⊎ ((file number : ℕ) × (outcome : Outcome) × HasOutcome files path name file number outcome) }
    ensures one { (files : List Opened) → AreSound files → (path name : List ℕ) (f g i j : ℕ) (a b : Outcome)
        → HasOutcome files path name f i a → HasOutcome files path name g j b → (f ≡ g) × (i ≡ j) × (a ≡ b) }
    ensures same { (files : List Opened) → AreSound files → (path name : List ℕ) (outcome : Outcome)
        → (decls files path name ≡ Some outcome)
        ↔ ((file number : ℕ) × HasOutcome files path name file number outcome) }
{}

/// The heads of names are followed as far as it takes: a way through more heads than there are names goes round for
/// ever.
pub fn names_come_down()
    ensures { (files : List Opened) → AreSound files → (path name : List ℕ) (basic : Basic)
        → (comes_down files path name ≡ Some basic) ↔ ComesDownTo files basic path name }
{}

/// Where no fetch fails, exactly one thing comes of taking files in: all are open, or the first that isn't taken in is
/// refused.
pub fn sessions_load_in_one_way()
    ensures either { (held : Held) (words : List Word) → HoldBytes held
        → (r : Result (List Opened) Refusal) × Loads (Some held) words r }
    ensures one { (held : Held) (words : List Word) (a b : Result (List Opened) Refusal) → Loads (Some held) words a
        → Loads (Some held) words b → a ≡ b }
{}
