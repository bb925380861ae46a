//! Laws about spellings, each the contract of a function that does nothing.

ghost use Rattle.std.specs.Prelude.{◌≡◌, ℕ, ◌<◌, ◌^◌, List, [], ◌++◌, Bool};
ghost use Rattle.wire_bytes.specs.Local.{IsLocal};
ghost use Rattle.wire_bytes.specs.Reading.{byte_at, bytes_at};
ghost use Rattle.wire_bytes.specs.Varint.{varint_at, flag_at};
ghost use Rattle.wire_bytes.specs.Whole.{whole_at};
ghost use Rattle.wire_bytes.specs.Uvarint.{Uvarint, BeginsWith, IsCutShort, uvarint_at};
ghost use Rattle.wire_bytes.specs.Text.{Text};

/// Each number of 64 bits has exactly one spelling, and none begins another, so what was written is read again,
/// whatever follows it.
pub fn one_number_spelling()
    ensures every { (n : ℕ) → n < 2 ^ 64 → (bytes : List ℕ) × Uvarint bytes n }
    ensures one { (a b : List ℕ) (n : ℕ) → Uvarint a n → Uvarint b n → a ≡ b }
    ensures prefix { (a x : List ℕ) (m n : ℕ) → Uvarint a m → Uvarint (a ++ x) n → x ≡ [] }
    ensures front { (bytes x y : List ℕ) (m n : ℕ) → BeginsWith bytes m x → BeginsWith bytes n y → (m ≡ n) × (x ≡ y) }
    ensures cut { (bytes x : List ℕ) (n : ℕ) → BeginsWith bytes n x → IsCutShort bytes → ⊥ }
{}

/// At most one text stands at an offset.
pub fn one_text()
    ensures { (strings : List ℕ) (offset : ℕ) (a b : List ℕ) → Text strings offset a → Text strings offset b → a ≡ b }
{}

/// Reading a byte, some bytes, a number, a signed one, a flag or a constant depends only on the bytes up to where it
/// ends or its fault is met. What was read stays, whatever follows it, and so does each fault but `Ended`, which comes
/// only where more bytes give another answer. All others stand at a byte that was left.
pub fn numbers_are_local()
    ensures byte { IsLocal byte_at }
    ensures bytes { (n : ℕ) → IsLocal (bytes_at n) }
    ensures number { IsLocal uvarint_at }
    ensures signed { IsLocal varint_at }
    ensures flag { IsLocal flag_at }
    ensures whole { (signed : Bool) (max : ℕ) → IsLocal (whole_at signed max) }
{}
