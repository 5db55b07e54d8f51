//! Errors that every crate shares: of numbers, of a device of the outside (a disk, a file, an
//! output, a turret), and of memory. The numbers of alarms and refusals are in cause.rt.
ghost use Rattle.std.specs.Prelude.{◌≡◌};
ghost use Rattle.nc_number.specs.Causes.{cause_number, cause_of_number_fault};

use crate::cause::Cause;
use std::alloc::{AllocError, AllocFailed};
use std::error::Error as Fault;
use thiserror::Error;

/// Why a number can't be had.
#[derive(Clone, Copy, Debug, PartialEq, Eq, Error)]
pub enum NumberFault {
    /// The exact rounded result is past the range of a value.
    #[error("overflow")]
    Overflow,
    /// A division by 0.
    #[error("division by zero")]
    ZeroDivide,
    /// The root of a value below 0.
    #[error("root of a negative value")]
    NegativeRoot,
    /// An operand of a bit call that is no whole number from 0 to 2,147,483,647.
    #[error("no whole number from 0 to 2147483647")]
    NotWhole,
    /// A literal of more than 8 whole digits, leading zeros not counted, or more than 6 fraction
    /// digits.
    #[error("too many digits")]
    TooManyDigits,
}

impl NumberFault {
    /// The alarm or refusal that it is.
    pub fn cause(self) -> Cause
        ensures { result ≡ cause_of_number_fault self }
    {
        match self {
            NumberFault::Overflow => Cause::Overflow,
            NumberFault::ZeroDivide => Cause::ZeroDivide,
            NumberFault::NegativeRoot => Cause::NegativeRoot,
            NumberFault::NotWhole => Cause::NotWhole,
            NumberFault::TooManyDigits => Cause::TooManyDigits,
        }
    }

    /// The number of the alarm or refusal that the fault is, from 1 to 5.
    pub fn number(self) -> u8
        ensures { result ≡ cause_number (cause_of_number_fault self) }
    {
        self.cause().number()
    }
}

/// A call of a device failed: its count of faults rose, or stands at its last value.
#[derive(Clone, Copy, Debug, PartialEq, Eq, Drop, Error)]
#[error("the device failed")]
pub struct Failed;

/// Memory ran out, or more was asked for than there can be. What the call then leaves as it was,
/// its contract says.
#[derive(Clone, Copy, Debug, PartialEq, Eq, Error)]
#[error("out of memory")]
pub struct NoMemory;

impl From<AllocError> for NoMemory {
    /// Memory ran out while it was reserved.
    fn from(_e: AllocError) -> Self {
        NoMemory
    }
}

impl<T: Drop> From<AllocFailed<T>> for NoMemory {
    /// Memory ran out while a thing was stored; the thing is dropped.
    fn from(_e: AllocFailed<T>) -> Self {
        NoMemory
    }
}

/// The error of a call that takes memory and has a fault of its own, `E`.
#[derive(Clone, Copy, Debug, PartialEq, Eq, Error)]
#[error_bound(E: Fault + Copy)]
pub enum Failing<E> {
    /// The call's own fault.
    #[error(transparent)]
    Fault(E),
    /// Memory ran out.
    #[error("out of memory")]
    NoMemory,
}

impl<E> From<NoMemory> for Failing<E> {
    ghost use Rattle.std.specs.Prelude.{◌≡◌};
    ghost use Rattle.nc_number.specs.declared.fault.Failing.TheVariants.{NoMemory as memory};

    ghost from_gives = { λ _ e. e ≡ memory };

    /// Memory ran out in a call that has faults of its own.
    fn from(_e: NoMemory) -> Self {
        Failing::NoMemory
    }
}

impl<E> From<AllocError> for Failing<E> {
    ghost use Rattle.std.specs.Prelude.{◌≡◌};
    ghost use Rattle.nc_number.specs.declared.fault.Failing.TheVariants.{NoMemory as memory};

    ghost from_gives = { λ _ e. e ≡ memory };

    /// Memory ran out while it was reserved, in a call that has faults of its own.
    fn from(_e: AllocError) -> Self {
        Failing::NoMemory
    }
}

impl<E, T: Drop> From<AllocFailed<T>> for Failing<E> {
    ghost use Rattle.std.specs.Prelude.{◌≡◌};
    ghost use Rattle.nc_number.specs.declared.fault.Failing.TheVariants.{NoMemory as memory};

    ghost from_gives = { λ _ e. e ≡ memory };

    /// Memory ran out while a thing was stored, in a call that has faults of its own; the thing is
    /// dropped.
    fn from(_e: AllocFailed<T>) -> Self {
        Failing::NoMemory
    }
}
