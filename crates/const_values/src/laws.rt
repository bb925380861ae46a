//! What the definitions of the operators say together.
ghost use Rattle.std.specs.Prelude.{◌≡◌, ◌≢◌, ◌<◌, ◌≤◌, ◌-◌, ◌+◌, ◌%◌, ◌^◌, ℕ, ℤ, pos, ◌+ℤ◌, ◌*ℤ◌, ◌≤ℤ◌, ◌<ℤ◌, int_div};
ghost use Rattle.std.specs.Prelude.{int_rem, unsigned_abs, min, max};
ghost use Rattle.const_values.specs.Exact.{shift_right};
ghost use Rattle.const_values.specs.Bitwise.{bit, flip, both, either, one_of};

/// The quotient times the divisor and the remainder are the number again, the remainder is smaller than the
/// divisor, and the quotient goes toward zero.
pub fn division()
    ensures whole { (x y : ℤ) → int_div x y *ℤ y +ℤ int_rem x y ≡ x }
    ensures smaller { (x y : ℤ) → y ≢ pos 0 → unsigned_abs (int_rem x y) < unsigned_abs y }
    ensures toward_zero { (x y : ℤ) → unsigned_abs (int_div x y *ℤ y) ≤ unsigned_abs x }
{}

/// A shift to the right gives the greatest number whose shift to the left by the same count is at most the
/// number.
pub fn shift_to_the_right()
    ensures at_most { (x : ℤ) (count : ℕ) → (shift_right x count *ℤ pos (2 ^ count)) ≤ℤ x }
    ensures greatest { (x : ℤ) (count : ℕ) → x <ℤ ((shift_right x count +ℤ pos 1) *ℤ pos (2 ^ count)) }
{}

/// The bitwise operators work on each bit alone.
pub fn bitwise()
    ensures both { (x y : ℤ) (place : ℕ) → bit (both x y) place ≡ min (bit x place) (bit y place) }
    ensures either { (x y : ℤ) (place : ℕ) → bit (either x y) place ≡ max (bit x place) (bit y place) }
    ensures one_of { (x y : ℤ) (place : ℕ) → bit (one_of x y) place ≡ (bit x place + bit y place) % 2 }
    ensures flip { (x : ℤ) (place : ℕ) → bit (flip x) place ≡ 1 - bit x place }
{}
