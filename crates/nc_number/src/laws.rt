//! What the words of the contracts mean, in laws of their own. None of these calls does anything:
//! the contract of each is a fact for readers and for whoever calls it. No crate calls them yet.

ghost use Rattle.std.specs.Prelude.{◌≡◌, ◌≢◌, ◌↔◌, ℕ, ℤ, pos, ◌+◌, ◌*◌, ◌%◌, ◌<◌, ◌≤◌, ◌^◌, ◌+ℤ◌, ◌-ℤ◌, ◌*ℤ◌, List, Option, Some, Ok, true, false, Contains, is_some, unsigned_abs};
ghost use Rattle.std.specs.Int.{is_negative};
ghost use Rattle.nc_number.specs.Arithmetic.{nearest_quotient, square_root, remainder_of, value_toward_zero, value_from_zero, whole_of};
ghost use Rattle.nc_number.specs.Causes.{cause_number, every_cause};
ghost use Rattle.nc_number.specs.Conversions.{thousandths_of};
ghost use Rattle.nc_number.specs.declared.cause.Cause.{Cause};
ghost use Rattle.nc_number.specs.declared.literal.Literal.{Literal};
ghost use Rattle.nc_number.specs.Literals.{IsLiteral, has_minus, has_point, word_literal};
ghost use Rattle.nc_number.specs.Printed.{value_text, length_text};
ghost use Rattle.nc_number.specs.Range.{InRange};
ghost use Rattle.nc_number.specs.Spelling.{Sign, IsWritten, HasParts};

/// `nearest_quotient a b` is the whole number nearest to `a / b`: no multiple of `b` is nearer to
/// `a`.
pub fn a_nearest_quotient_is_nearest()
    ensures { (a b k : ℤ) → b ≢ pos 0
        → unsigned_abs (a -ℤ nearest_quotient a b *ℤ b) ≤ unsigned_abs (a -ℤ k *ℤ b) }
{}

/// Where another whole number is as near, `nearest_quotient` is the one farther from zero.
pub fn halves_go_away_from_zero()
    ensures { (a b k : ℤ) → b ≢ pos 0
        → unsigned_abs (a -ℤ k *ℤ b) ≡ unsigned_abs (a -ℤ nearest_quotient a b *ℤ b)
        → unsigned_abs k ≤ unsigned_abs (nearest_quotient a b) }
{}

/// The square of a root is at most the number, and the next number's square is more.
pub fn a_root_is_the_greatest()
    ensures square { (n : ℕ) → square_root n * square_root n ≤ n }
    ensures next { (n : ℕ) → n < (square_root n + 1) * (square_root n + 1) }
{}

/// A remainder is smaller than the divisor, signs aside; it is 0 or has the dividend's sign; and
/// it differs from the dividend by a multiple of the divisor.
pub fn a_remainder_keeps_the_sign()
    ensures smaller { (a b r : ℤ) → remainder_of a b ≡ Ok r → unsigned_abs r < unsigned_abs b }
    ensures sign { (a b r : ℤ) → remainder_of a b ≡ Ok r → r ≢ pos 0 → is_negative r ≡ is_negative a }
    ensures multiple { (a b r : ℤ) → remainder_of a b ≡ Ok r → (q : ℤ) × (a ≡ q *ℤ b +ℤ r) }
{}

/// A fraction is dropped: what is left is the greatest whole number not above the magnitude, with
/// the sign kept.
pub fn a_fraction_is_dropped()
    ensures whole { (a : ℤ) → unsigned_abs (value_toward_zero a) % 1000000 ≡ 0 }
    ensures next { (a : ℤ) → (unsigned_abs (value_toward_zero a) ≤ unsigned_abs a)
        × (unsigned_abs a < unsigned_abs (value_toward_zero a) + 1000000) }
    ensures sign { (a : ℤ) → value_toward_zero a ≢ pos 0 → is_negative (value_toward_zero a) ≡ is_negative a }
{}

/// A magnitude is raised: the answer is the least whole number not below it, with the sign kept.
pub fn a_magnitude_is_raised()
    ensures whole { (a w : ℤ) → value_from_zero a ≡ Ok w → unsigned_abs w % 1000000 ≡ 0 }
    ensures next { (a w : ℤ) → value_from_zero a ≡ Ok w
        → (unsigned_abs a ≤ unsigned_abs w) × (unsigned_abs w < unsigned_abs a + 1000000) }
    ensures sign { (a w : ℤ) → value_from_zero a ≡ Ok w → w ≢ pos 0 → is_negative w ≡ is_negative a }
{}

/// The literals are the texts that the grammar spells, and the parts of a text are those of its
/// spelling.
pub fn a_literal_is_a_sign_digits_and_a_fraction()
    ensures spelled { (text : List ℕ) → IsLiteral text
        → (sign : Sign) × (whole : List ℕ) × (fraction : Option (List ℕ)) × IsWritten text sign whole fraction }
    ensures parts { (text : List ℕ) (sign : Sign) (whole : List ℕ) (fraction : Option (List ℕ))
        → IsWritten text sign whole fraction → HasParts text sign whole fraction }
{}

/// What a literal writes is in the range of a value.
pub fn what_reads_is_a_value()
    ensures { (text : List ℕ) (literal : Literal) → IsLiteral text → word_literal text ≡ Ok literal
        → InRange literal.value }
{}

/// A literal without a point counts thousandths, none of which is cut: it writes a whole number,
/// and that is its count.
pub fn a_literal_without_a_point_counts_thousandths()
    ensures { (text : List ℕ) (literal : Literal) → IsLiteral text → word_literal text ≡ Ok literal
        → literal.point ≡ false → literal.value ≡ thousandths_of literal *ℤ pos 1000000 }
{}

/// A value is a whole number exactly where it is so many units.
pub fn a_whole_number_is_its_units()
    ensures { (a n : ℤ) → (whole_of a ≡ Some n) ↔ (a ≡ n *ℤ pos 1000000) }
{}

/// No number stands for two alarms or refusals, and each of them is a row of the table.
pub fn a_number_has_one_cause()
    ensures one { (a b : Cause) → cause_number a ≡ cause_number b → a ≡ b }
    ensures listed { (cause : Cause) → Contains every_cause cause }
{}

/// What is printed of a value is a literal that reads back as that value.
pub fn a_printed_value_reads_back()
    ensures literal { (a : ℤ) → InRange a → IsLiteral (value_text a) }
    ensures value { (a : ℤ) → InRange a
        → word_literal (value_text a) ≡ Ok (record { value = a; point = has_point (value_text a) }) }
    ensures minus { (a : ℤ) → InRange a → has_minus (value_text a) ≡ is_negative a }
{}

/// What is printed of a length of up to 99,999,999.999 mm reads back as that length; a minus
/// stands only before a length below 0.
pub fn a_printed_length_reads_back()
    ensures literal { (a : ℤ) → unsigned_abs a ≤ 2 ^ 63 → IsLiteral (length_text a) }
    ensures value { (a : ℤ) → unsigned_abs a ≤ 99999999999
        → word_literal (length_text a) ≡ Ok (record { value = a *ℤ pos 1000; point = true }) }
    ensures minus { (a : ℤ) → unsigned_abs a ≤ 2 ^ 63 → has_minus (length_text a) ≡ is_negative a }
{}
