//! Rounding of values to whole numbers (ROUND, FIX, FUP) and to increments of 0.001.
ghost use Rattle.std.specs.Prelude.{◌≡◌, ◌≢◌, ◌^◌, ◌<◌, ◌≤◌, unsigned_abs};
ghost use Rattle.nc_number.specs.declared.limits.TheConstants.{LONGEST_SAID};
ghost use Rattle.nc_number.specs.Arithmetic.{nearest, nearest_quotient, rounded_value, value_toward_zero, value_from_zero, increments_of};

use crate::fault::NumberFault;
use crate::value::Value;

/// Millionths in a unit.
pub(crate) const MICRO_IN_UNIT: i128 = 1_000_000;

/// Millionths in an increment of 0.001.
pub(crate) const MICRO_IN_INCREMENT: i128 = 1_000;

/// The whole number nearest to `size / by`, halves upwards.
fn nearest(size: u128, by: u128) -> u128
    requires divisor { 0 < by }
    requires divisor_room { by < 2 ^ 120 }
    requires room { size < 2 ^ 120 }
    ensures { result ≡ nearest size by }
{
    if by <= 2 * (size % by) {
        size / by + 1
    } else {
        size / by
    }
}

/// The whole number nearest to `a / b`, halves away from zero; `b` is not 0.
pub(crate) fn nearest_quotient(a: i128, b: i128) -> i128
    requires divisor { 0 < unsigned_abs b }
    requires room { unsigned_abs a < 2 ^ 120 }
    requires divisor_room { unsigned_abs b < 2 ^ 120 }
    ensures { result ≡ nearest_quotient a b }
{
    let size = nearest(a.unsigned_abs(), b.unsigned_abs()) as i128;
    if (a < 0) == (b < 0) { size } else { -size }
}

/// The whole number of units nearest to the value, halves away from zero; Overflow exactly past the
/// range.
pub fn round(a: Value) -> Result<Value, NumberFault>
    ensures { result ≡ rounded_value a }
{
    Value::checked(nearest_quotient(a.wide(), MICRO_IN_UNIT) * MICRO_IN_UNIT)
}

/// The number with its fraction dropped, so that it goes towards zero.
pub fn fix(a: Value) -> Value
    ensures { result ≡ value_toward_zero a }
{
    let micro = a.micro();
    Value::signed(
        micro.unsigned_abs() / MICRO_IN_UNIT as u64 * MICRO_IN_UNIT as u64,
        micro < 0,
    )
}

/// The number with its magnitude raised to a whole number; Overflow exactly past the range.
pub fn fup(a: Value) -> Result<Value, NumberFault>
    ensures { result ≡ value_from_zero a }
{
    let micro = a.wide();
    let size = micro.unsigned_abs().div_ceil(MICRO_IN_UNIT as u128) as i128 * MICRO_IN_UNIT;
    Value::checked(if micro < 0 { -size } else { size })
}

/// The increments of 0.001 nearest to a value, halves away from zero.
pub fn to_increment(a: Value) -> i64
    ensures count { result ≡ increments_of a }
    ensures range { unsigned_abs result ≤ LONGEST_SAID }
{
    nearest_quotient(a.wide(), MICRO_IN_INCREMENT) as i64
}
