//! Bit operations (AND, OR, XOR) on whole numbers from 0 to 2,147,483,647.
ghost use Rattle.std.specs.Prelude.{◌≡◌, ◌*◌, ◌&&◌, pos, Some, None, Ok, Err, if◌then◌else◌};
ghost use Rattle.nc_number.specs.Arithmetic.{checked_value, has_bits, units, and_of, or_of, xor_of};

use crate::fault::NumberFault;
use crate::rounding::MICRO_IN_UNIT;
use crate::value::Value;

/// The whole number from 0 on that a value is, if it is one. It is always below 2,147,483,647.
fn whole(a: Value) -> Option<u32>
    ensures { result ≡ (if has_bits a then Some (units a) else None) }
{
    let micro = a.wide();
    if micro >= 0 && micro % MICRO_IN_UNIT == 0 {
        Some((micro / MICRO_IN_UNIT) as u32)
    } else {
        None
    }
}

/// The whole numbers from 0 on that both values are; NotWhole if one is none.
fn both(a: Value, b: Value) -> Result<(u32, u32), NumberFault>
    ensures whole { result ≡ (if has_bits a && has_bits b then Ok (units a, units b) else Err NumberFault.NotWhole) }
{
    match (whole(a), whole(b)) {
        (Some(a), Some(b)) => Ok((a, b)),
        _ => Err(NumberFault::NotWhole),
    }
}

/// The value of so many units; Overflow past the range.
fn of_units(units: u32) -> Result<Value, NumberFault>
    ensures { result ≡ checked_value (pos (units * 1000000)) }
{
    Value::checked(i128::from(units) * MICRO_IN_UNIT)
}

/// The bits that both numbers have. NotWhole exactly where one is no whole number from 0 on.
pub fn bit_and(a: Value, b: Value) -> Result<Value, NumberFault>
    ensures { result ≡ and_of a b }
{
    let (left, right) = both(a, b)?;
    of_units(left & right)
}

/// The bits that one of the numbers or both have. NotWhole exactly where one is no whole number
/// from 0 on; else Overflow exactly past the range.
pub fn bit_or(a: Value, b: Value) -> Result<Value, NumberFault>
    ensures { result ≡ or_of a b }
{
    let (left, right) = both(a, b)?;
    of_units(left | right)
}

/// The bits that one of the numbers has, and not both. NotWhole exactly where one is no whole
/// number from 0 on; else Overflow exactly past the range.
pub fn bit_xor(a: Value, b: Value) -> Result<Value, NumberFault>
    ensures { result ≡ xor_of a b }
{
    let (left, right) = both(a, b)?;
    of_units(left ^ right)
}
