//! Laws about full files, each the contract of a function that does nothing.

ghost use Rattle.std.specs.Prelude.{◌≡◌, ℕ, ◌<◌, ◌⊎◌, List, ◌++◌, length, false};
ghost use Rattle.std.specs.List.{AllByRecursion};
ghost use Rattle.wire_bytes.specs.declared.fault.ByteFault.{ByteFault};
ghost use Rattle.wire_bytes.specs.declared.fault.ByteFault.TheVariants.{Ended, Trailing};
ghost use Rattle.wire_bytes.specs.Local.{is_ended, AreBytes, IsAmong};
ghost use Rattle.name_index.specs.FullFile.{FullFile};
ghost use Rattle.name_index.specs.Envelope.{Envelope};
ghost use Rattle.name_index.specs.FirstBreach.{FirstBreach};
ghost use Rattle.name_index.specs.Lookup.{IsListed};

/// A list of bytes is a full file of a path, or it has a first breach; it is one file at the most and has one first
/// breach at the most, and never both.
pub fn file_or_breach()
    ensures either { (own bytes : List ℕ) → AllByRecursion (λ b. b < 256) bytes
        → ((file : FullFile) × Envelope own bytes file) ⊎ ((fault : ByteFault) × FirstBreach own bytes fault) }
    ensures one_file { (own bytes : List ℕ) (a b : FullFile) → Envelope own bytes a → Envelope own bytes b → a ≡ b }
    ensures one_breach { (own bytes : List ℕ) (a b : ByteFault) → FirstBreach own bytes a → FirstBreach own bytes b
        → a ≡ b }
    ensures not_both { (own bytes : List ℕ) (file : FullFile) (fault : ByteFault) → Envelope own bytes file
        → FirstBreach own bytes fault → ⊥ }
{}

/// The index of a full file lists each name of each path once, so a name has one number and one offset.
pub fn listed_once()
    ensures { (own bytes : List ℕ) (file : FullFile) → Envelope own bytes file
        → (i j : ℕ) (path name : List ℕ) (a b : ℕ) → IsListed file.packages i path name a
        → IsListed file.packages j path name b → (i ≡ j) × (a ≡ b) }
{}

/// The first breach of a file depends only on the bytes up to where it is met. It stays whatever follows, and stands at
/// a byte of the file, unless it is that the file ends: this stands at the file's end, and comes only where more bytes
/// give another answer. A full file with anything behind it is trailing there.
pub fn breaches_are_local()
    ensures stays { (own bytes more : List ℕ) (fault : ByteFault) → FirstBreach own bytes fault
        → is_ended fault ≡ false → FirstBreach own (bytes ++ more) fault }
    ensures inside { (own bytes : List ℕ) (fault : ByteFault) → FirstBreach own bytes fault
        → is_ended fault ≡ false → IsAmong 0 (length bytes) fault }
    ensures end { (own bytes : List ℕ) (at : ℕ) → FirstBreach own bytes (Ended at) → at ≡ length bytes }
    ensures goes_on { (own bytes : List ℕ) (at : ℕ) → FirstBreach own bytes (Ended at)
        → (more : List ℕ) × AreBytes more × ((at : ℕ) → FirstBreach own (bytes ++ more) (Ended at) → ⊥) }
    ensures trailing { (own bytes more : List ℕ) (file : FullFile) → Envelope own bytes file → 0 < length more
        → FirstBreach own (bytes ++ more) (Trailing (length bytes)) }
{}
