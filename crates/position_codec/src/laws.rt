//! Laws about positions, each the contract of a function that does nothing.

ghost use Rattle.std.specs.Prelude.{◌≡◌, ◌<◌, ◌^◌, List, ℕ};
ghost use Rattle.wire_bytes.specs.Begins.{IsPrefixCode};
ghost use Rattle.wire_bytes.specs.Local.{IsLocal};
ghost use Rattle.wire_bytes.specs.Text.{Text};
ghost use Rattle.position_codec.specs.Place.{Place, place_of, pos_of};
ghost use Rattle.position_codec.specs.Position.{Position, IsPlace, named_under, position_at};

/// After one position each place with the offset of its file's name has exactly one spelling, and none begins another,
/// so what was written is read again, whatever follows it. Only the empty file, line 0 and column 0 is read as no
/// position.
pub fn one_position_spelling()
    ensures every { (strings : List ℕ) (before now : Place) (offset : ℕ) → IsPlace before → IsPlace now
        → offset < 2 ^ 64 → Text strings offset now.file → (bytes : List ℕ)
        × Position strings before bytes (named_under offset before now) }
    ensures code { (strings : List ℕ) (before : Place) → IsPrefixCode (Position strings before) }
    ensures back { (p : Place) → place_of (pos_of p) ≡ p }
{}

/// Reading a position depends only on the bytes up to where it ends or its fault is met: what was read, and each fault
/// but `Ended`, stays whatever follows, and stands at a byte that was left; `Ended` comes only where more bytes give
/// another answer.
pub fn positions_are_local()
    ensures { (strings : List ℕ) (before : Place) → IsLocal (position_at strings before) }
{}
