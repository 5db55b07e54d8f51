//! The numbers of offsets, as types: 0 to 6 for work offsets, 1 to 64 for a tool's. A slot (slot.rt)
//! has one.
ghost use Rattle.std.specs.Prelude.{◌≡◌, ◌≤◌};
ghost use Rattle.nc_number.specs.declared.point.TheConstants.{TOOL_OFFSETS};
ghost use Rattle.offset_store.specs.declared.number.TheConstants.{LAST_WORK};

use nc_number::TOOL_OFFSETS;
use std::marker::Model;

/// The greatest number of a work offset, that of G59.
pub const LAST_WORK: u8 = 6;

/// The number of a work offset: 0 is the external one, 1 to 6 are those of G54 to G59.
#[derive(Clone, Copy, Debug, PartialEq, Eq)]
pub struct WorkNumber {
    /// The number: 0 to 6.
    number: u8,
}

impl Model for WorkNumber {
    ghost use Rattle.std.specs.Prelude.{ℕ, ◌≤◌};
    ghost use Rattle.offset_store.specs.declared.number.TheConstants.{LAST_WORK};

    ghost Value = { ℕ };

    ghost view = { λ n. n.number };

    ghost invariant = { λ n. n.number ≤ LAST_WORK };

    ghost inverse = { λ n. record { number = n } };
}

/// The number of a tool offset, from 1 to 64.
#[derive(Clone, Copy, Debug, PartialEq, Eq)]
pub struct ToolNumber {
    /// The number: 1 to 64.
    number: u8,
}

impl Model for ToolNumber {
    ghost use Rattle.std.specs.Prelude.{ℕ, ◌≤◌};
    ghost use Rattle.nc_number.specs.declared.point.TheConstants.{TOOL_OFFSETS};

    ghost Value = { ℕ };

    ghost view = { λ n. n.number };

    ghost invariant = { λ n. (1 ≤ n.number) × (n.number ≤ TOOL_OFFSETS) };

    ghost inverse = { λ n. record { number = n } };
}

impl WorkNumber {
    ghost use Rattle.offset_store.specs.Numbers.{work_number};

    /// The work offset of this number, which must be from 0 to 6.
    pub fn new(n: u8) -> Self
        requires { n ≤ LAST_WORK }
        ensures { result ≡ n }
    {
        WorkNumber { number: n }
    }

    /// The work offset of this number: none exactly if it is none of 0 to 6.
    pub fn of(n: i64) -> Option<Self>
        ensures { result ≡ work_number n }
    {
        if n >= 0 && n <= LAST_WORK as i64 {
            Some(WorkNumber::new(n as u8))
        } else {
            None
        }
    }

    /// The number, from 0 to 6.
    pub fn get(&self) -> u8
        ensures number { result ≡ self.now }
        ensures range { result ≤ LAST_WORK }
    {
        self.number
    }
}

impl ToolNumber {
    ghost use Rattle.offset_store.specs.Numbers.{tool_number};

    /// The tool offset of this number, which must be from 1 to 64.
    pub fn new(n: u8) -> Self
        requires least { 1 ≤ n }
        requires most { n ≤ TOOL_OFFSETS }
        ensures { result ≡ n }
    {
        ToolNumber { number: n }
    }

    /// The tool offset of this number: none exactly if it is none of 1 to 64.
    pub fn of(n: i64) -> Option<Self>
        ensures { result ≡ tool_number n }
    {
        if n >= 1 && n <= TOOL_OFFSETS as i64 {
            Some(ToolNumber::new(n as u8))
        } else {
            None
        }
    }

    /// The number, from 1 to 64.
    pub fn get(&self) -> u8
        ensures number { result ≡ self.now }
        ensures range { (1 ≤ result) × (result ≤ TOOL_OFFSETS) }
    {
        self.number
    }
}
