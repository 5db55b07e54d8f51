//! The numbers of the control as one type, exact to 0.000001, and what a variable holds. Literals,
//! expressions and variables are such values; arithmetic.rt, rounding.rt and bits.rt compute with
//! them.
ghost use Rattle.std.specs.Prelude.{◌≡◌, ◌↔◌, ◌≤◌, ◌*ℤ◌, pos, neg_ℤ, unsigned_abs, IsSome, IfSome, Some};
ghost use Rattle.nc_number.specs.declared.limits.TheConstants.{LARGEST_MICRO, LARGEST_WHOLE};
ghost use Rattle.nc_number.specs.Arithmetic.{checked_value, value_of_units, value_of_increments, whole_of};
ghost use Rattle.nc_number.specs.Range.{InRange};
ghost use Rattle.nc_number.specs.Signs.{with_sign};

use crate::fault::NumberFault;
use crate::limits::LARGEST_MICRO;
use crate::rounding::{MICRO_IN_INCREMENT, MICRO_IN_UNIT};
use std::marker::Model;

/// A number of the control: a whole count of millionths, of magnitude at most 99,999,999.999999.
#[derive(Clone, Copy, Debug, PartialEq, Eq, PartialOrd, Ord, Hash)]
pub struct Value {
    /// The count of millionths.
    micro: i64,
}

impl Model for Value {
    ghost use Rattle.std.specs.Prelude.{ℤ};
    ghost use Rattle.nc_number.specs.Range.{InRange};

    ghost Value = { ℤ };

    ghost view = { λ v. v.micro };

    ghost invariant = { λ v. InRange v.micro };

    ghost inverse = { λ n. record { micro = n } };
}

/// What a variable is: vacant, or a value.
#[derive(Clone, Copy, Debug, PartialEq, Eq)]
pub enum Var {
    /// The variable holds no value.
    Vacant,
    /// The variable holds this value.
    Is(Value),
}

/// The greatest count of millionths that is a value.
const LARGEST: i64 = LARGEST_MICRO as i64;

impl Value {
    /// The value of that many millionths, if they are in the range.
    pub fn of(micro: i64) -> Option<Self>
        ensures some { IsSome result ↔ InRange micro }
        ensures value { IfSome result (λ v. v ≡ micro) }
    {
        if micro >= -LARGEST && micro <= LARGEST {
            Some(Value { micro })
        } else {
            None
        }
    }

    /// 0.
    pub fn zero() -> Self
        ensures { result ≡ pos 0 }
    {
        Value { micro: 0 }
    }

    /// The value of that many whole units, where it is in the range.
    pub fn of_units(units: i64) -> Option<Self>
        ensures { result ≡ value_of_units units }
    {
        Value::checked(i128::from(units) * MICRO_IN_UNIT).ok()
    }

    /// The value of that many increments of 0.001, where it is in the range.
    pub fn of_increments(increments: i64) -> Option<Self>
        ensures { result ≡ value_of_increments increments }
    {
        Value::checked(i128::from(increments) * MICRO_IN_INCREMENT).ok()
    }

    /// The whole number that it is, where its fraction is 0.
    pub fn whole(&self) -> Option<i64>
        ensures value { result ≡ whole_of self.now }
        ensures range { IfSome result (λ n. unsigned_abs n ≤ LARGEST_WHOLE) }
    {
        let unit = MICRO_IN_UNIT as i64;
        if self.micro % unit == 0 {
            Some(self.micro / unit)
        } else {
            None
        }
    }

    /// The count of millionths that the value is.
    pub fn micro(&self) -> i64
        ensures count { result ≡ self.now }
        ensures range { InRange result }
    {
        self.micro
    }

    /// The value of that many millionths, or Overflow where they are past the range.
    pub(crate) fn checked(micro: i128) -> Result<Self, NumberFault>
        ensures { result ≡ checked_value micro }
    {
        if micro.unsigned_abs() <= LARGEST as u128 {
            Ok(Value {
                micro: micro as i64,
            })
        } else {
            Err(NumberFault::Overflow)
        }
    }

    /// The count of millionths that the value is, as wide as products of two values need.
    pub(crate) fn wide(self) -> i128
        ensures count { result ≡ self }
        ensures range { InRange result }
    {
        i128::from(self.micro)
    }

    /// The value of that magnitude and sign.
    pub(crate) fn signed(size: u64, minus: bool) -> Self
        requires { size ≤ LARGEST_MICRO }
        ensures { result ≡ with_sign minus size }
    {
        let micro = size as i64;
        Value {
            micro: if minus { -micro } else { micro },
        }
    }

    /// The value with the other sign.
    pub(crate) fn negated(self) -> Self
        ensures { result ≡ neg_ℤ self }
    {
        Value { micro: -self.micro }
    }
}

impl Default for Var {
    ghost use Rattle.std.specs.Prelude.{◌≡◌};
    ghost use Rattle.nc_number.specs.declared.value.Var.TheVariants.{Vacant};

    ghost is_default = { λ var. var ≡ Vacant };

    /// A variable that was never set is vacant.
    fn default() -> Self {
        Var::Vacant
    }
}

impl Var {
    ghost use Rattle.nc_number.specs.Variables.{or_zero};

    /// The value of the variable, where a vacant one counts as 0.
    pub fn or_zero(&self) -> Value
        ensures { result ≡ or_zero self.now }
    {
        match self {
            Var::Vacant => Value::zero(),
            Var::Is(value) => *value,
        }
    }
}
