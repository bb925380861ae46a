//! The law of the bytes of a file.

ghost use Rattle.std.specs.Prelude.{◌≡◌, List, ℕ};
ghost use Rattle.name_index.specs.FullFile.{Package, content};
ghost use Rattle.name_index.specs.Envelope.{Envelope};
ghost use Rattle.wire_bytes.specs.Section.{section_of};
ghost use Rattle.file_envelope.specs.FileBytes.{full_bytes, file_of, MayFollow};

/// The bytes of a file are a full file of its parts, whose sections are those that it was made of.
pub fn a_file_has_its_envelope()
    ensures envelope { (own : List ℕ) (texts : List (List ℕ)) (body : List ℕ) (packages : List Package)
        → MayFollow own texts body packages
        → Envelope own (full_bytes texts body packages) (file_of own texts body packages) }
    ensures strings { (own : List ℕ) (texts : List (List ℕ)) (body : List ℕ) (packages : List Package)
        → content (full_bytes texts body packages) (file_of own texts body packages).strings ≡ section_of texts }
    ensures body { (own : List ℕ) (texts : List (List ℕ)) (body : List ℕ) (packages : List Package)
        → content (full_bytes texts body packages) (file_of own texts body packages).body ≡ body }
{}
