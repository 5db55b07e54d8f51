//! The arithmetic of the control on values: sum to root, exact or rounded to the millionth. Rounding
//! to whole numbers is in rounding.rt, bits are in bits.rt.
ghost use Rattle.std.specs.Prelude.{◌≡◌, pos, neg_ℤ, unsigned_abs};
ghost use Rattle.nc_number.specs.Arithmetic.{sum_of, difference_of, product_of, quotient_of, remainder_of, root_of};

use crate::fault::NumberFault;
use crate::rounding::{MICRO_IN_UNIT, nearest_quotient};
use crate::value::Value;

/// The sum; Overflow exactly where it is past the range.
pub fn add(a: Value, b: Value) -> Result<Value, NumberFault>
    ensures { result ≡ sum_of a b }
{
    Value::checked(a.wide() + b.wide())
}

/// The difference; Overflow exactly where it is past the range.
pub fn sub(a: Value, b: Value) -> Result<Value, NumberFault>
    ensures { result ≡ difference_of a b }
{
    Value::checked(a.wide() - b.wide())
}

/// The product, rounded to the nearest millionth, halves away from zero; Overflow exactly where
/// that is past the range.
pub fn mul(a: Value, b: Value) -> Result<Value, NumberFault>
    ensures { result ≡ product_of a b }
{
    let product = a.wide() * b.wide();
    Value::checked(nearest_quotient(product, MICRO_IN_UNIT))
}

/// The quotient, rounded to the nearest millionth, halves away from zero; ZeroDivide exactly where
/// `b` is 0, and else Overflow exactly where the quotient is past the range.
pub fn div(a: Value, b: Value) -> Result<Value, NumberFault>
    ensures { result ≡ quotient_of a b }
{
    let divisor = b.wide();
    if divisor == 0 {
        return Err(NumberFault::ZeroDivide);
    }
    Value::checked(nearest_quotient(a.wide() * MICRO_IN_UNIT, divisor))
}

/// The remainder of the unrounded values, with the dividend's sign; ZeroDivide exactly where `b`
/// is 0.
pub fn modulo(a: Value, b: Value) -> Result<Value, NumberFault>
    ensures { result ≡ remainder_of a b }
{
    let divisor = b.wide();
    if divisor == 0 {
        return Err(NumberFault::ZeroDivide);
    }
    Value::checked(a.wide() % divisor)
}

/// The square root, rounded down in the last place; NegativeRoot exactly below 0.
pub fn sqrt(a: Value) -> Result<Value, NumberFault>
    ensures { result ≡ root_of a }
{
    let micro = a.wide();
    if micro < 0 {
        return Err(NumberFault::NegativeRoot);
    }
    Value::checked((micro * MICRO_IN_UNIT).unsigned_abs().isqrt() as i128)
}

/// The magnitude.
pub fn abs(a: Value) -> Value
    ensures { result ≡ pos (unsigned_abs a) }
{
    if a.micro() < 0 { neg(a) } else { a }
}

/// The value with the other sign.
pub fn neg(a: Value) -> Value
    ensures { result ≡ neg_ℤ a }
{
    Value::negated(a)
}
