//! Laws about signed numbers, flags, constants and sections, each the contract of a function that does nothing.

ghost use Rattle.std.specs.Prelude.{◌≡◌, ◌<◌, ◌≤◌, ◌^◌, ◌++◌, ℤ, FitsSigned, List, ℕ, Bool, Some, length, IsTrue};
ghost use Rattle.std.specs.Int.{w64};
ghost use Rattle.wire_bytes.specs.Begins.{IsPrefixCode};
ghost use Rattle.wire_bytes.specs.Section.{section_of, offset_in};
ghost use Rattle.wire_bytes.specs.Text.{Text};
ghost use Rattle.wire_bytes.specs.Varint.{Varint, Flag};
ghost use Rattle.wire_bytes.specs.Whole.{IsGreatestLength, Whole, in_range, small_limit, length_behind};

/// Each signed number of 64 bits has exactly one spelling, and none begins another, so what was written is read again,
/// whatever follows it.
pub fn one_varint_spelling()
    ensures every { (x : ℤ) → FitsSigned w64 x → (bytes : List ℕ) × Varint bytes x }
    ensures code { IsPrefixCode Varint }
{}

/// Both flags have exactly one spelling, and neither begins the other.
pub fn one_flag_spelling()
    ensures every { (flag : Bool) → (bytes : List ℕ) × Flag bytes flag }
    ensures code { IsPrefixCode Flag }
{}

/// Each value of a type has exactly one spelling, and none begins another. A byte that is no code tells of one byte at
/// the least, and of no more than the type's values have.
pub fn one_whole_spelling()
    ensures every { (signed : Bool) (max : ℕ) (v : ℤ) → IsGreatestLength max → IsTrue (in_range signed max v)
        → (bytes : List ℕ) × Whole signed max bytes v }
    ensures code { (signed : Bool) (max : ℕ) → IsGreatestLength max → IsPrefixCode (Whole signed max) }
    ensures lengths { (signed : Bool) (max prefix : ℕ) → IsGreatestLength max → small_limit signed max ≤ prefix
        → prefix < 256 → (1 ≤ length_behind signed prefix) × (length_behind signed prefix ≤ max) }
{}

/// Each text of a section stands at its offset, and what stands in a section stands there still when more is added at
/// its end.
pub fn texts_stand()
    ensures each { (texts : List (List ℕ)) (text : List ℕ) (o : ℕ) → length text < 2 ^ 64
        → offset_in texts text ≡ Some o → Text (section_of texts) o text }
    ensures still { (strings more : List ℕ) (o : ℕ) (text : List ℕ) → Text strings o text
        → Text (strings ++ more) o text }
{}
