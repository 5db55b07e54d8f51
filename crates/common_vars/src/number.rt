//! The number of a common variable, as a type.
ghost use Rattle.std.specs.Prelude.{◌≡◌, ◌↔◌, IsSome};
ghost use Rattle.common_vars.specs.Common.{IsCommon};

use crate::own::is_common;
use std::marker::Model;

/// The number of a common variable: 100 to 199, or 500 to 999.
#[derive(Clone, Copy, Debug, PartialEq, Eq)]
pub struct CommonNumber {
    /// The number: 100 to 199, or 500 to 999.
    number: u32,
}

impl Model for CommonNumber {
    ghost use Rattle.std.specs.Prelude.{ℕ};
    ghost use Rattle.common_vars.specs.Common.{IsCommon};

    ghost Value = { ℕ };

    ghost view = { λ v. v.number };

    ghost invariant = { λ v. IsCommon v.number };

    ghost inverse = { λ n. record { number = n } };
}

impl CommonNumber {
    ghost use Rattle.common_vars.specs.Common.{common_number};

    /// The common variable of this number, which must be 100 to 199 or 500 to 999.
    pub fn new(v: u32) -> Self
        requires { IsCommon v }
        ensures { result ≡ v }
    {
        CommonNumber { number: v }
    }

    /// The common variable of this number: none exactly if it names none.
    pub fn of(v: u32) -> Option<Self>
        ensures number { result ≡ common_number v }
        ensures some { IsSome result ↔ IsCommon v }
    {
        if is_common(v) {
            Some(CommonNumber::new(v))
        } else {
            None
        }
    }

    /// The number: 100 to 199, or 500 to 999.
    pub fn get(&self) -> u32
        ensures number { result ≡ self.now }
        ensures common { IsCommon result }
    {
        self.number
    }
}
