//! What a groove or a hole may not say. Who reads one asks before it asks for the blocks.
ghost use Rattle.std.specs.Prelude.{◌≡◌, ◌≤◌, None, unsigned_abs};
ghost use Rattle.peck_cycle.specs.Faults.{is_in_order, near_fault_of, pecks_fault_of, hole_fault_of, groove_fault_of};
ghost use Rattle.peck_cycle.specs.Near.{IsNearPecks, IsNearGroove, is_near_length, is_near_pecks, is_near_groove};

use crate::drill::DrillCycle;
use crate::groove::GrooveCycle;
use crate::pecks::Pecks;
use nc_number::LONGEST_SAID;

/// Why a groove or a hole is refused. Of several causes the first in this order is told.
#[derive(Clone, Copy, Debug, PartialEq, Eq)]
pub enum PeckFault {
    /// A length is more than a word can say.
    TooLarge,
    /// The bottom is at the level: there is nothing to cut.
    NoDepth,
    /// A peck is not deep at all.
    NoPeck,
    /// The columns are not one beside the other, but there is more than one.
    NoStep,
    /// The point R does not lie between the start and the bottom.
    WrongSide,
}

impl Pecks {
    /// What pecks may not say, if they say such a thing.
    fn fault(&self) -> Option<PeckFault>
        ensures { result ≡ pecks_fault_of self.now }
    {
        if is_near_length(self.level) && is_near_length(self.bottom) && self.peck <= LONGEST_SAID {
            self.fault_in_reach()
        } else {
            Some(PeckFault::TooLarge)
        }
    }

    /// What pecks may not say that words can say.
    fn fault_in_reach(&self) -> Option<PeckFault>
        ensures { result ≡ near_fault_of self.now }
    {
        if self.level.abs_diff(self.bottom) == 0 {
            return Some(PeckFault::NoDepth);
        }
        if self.peck == 0 {
            return Some(PeckFault::NoPeck);
        }
        None
    }
}

impl DrillCycle {
    /// What a hole may not say, if it says such a thing.
    pub fn fault(&self) -> Option<PeckFault>
        ensures { result ≡ hole_fault_of self.now }
    {
        let fault = self.pecks.fault();
        if fault.is_some() {
            return fault;
        }
        if is_in_order(self.start, self.pecks.level, self.pecks.bottom) {
            None
        } else {
            Some(PeckFault::WrongSide)
        }
    }
}

impl GrooveCycle {
    /// What a groove may not say, if it says such a thing.
    pub fn fault(&self) -> Option<PeckFault>
        ensures { result ≡ groove_fault_of self.now }
    {
        if !self.is_near() {
            return Some(PeckFault::TooLarge);
        }
        let fault = self.pecks.fault();
        if fault.is_some() {
            return fault;
        }
        if self.step == 0 && self.from.abs_diff(self.to) != 0 {
            Some(PeckFault::NoStep)
        } else {
            None
        }
    }

    /// Whether words can say the places of its columns.
    fn is_near(&self) -> bool
        ensures { result ≡ is_near_groove self.now }
    {
        is_near_length(self.from) && is_near_length(self.to) && self.step <= LONGEST_SAID
    }
}

/// Whether a word can say a length.
fn is_near_length(length: i64) -> bool
    ensures { result ≡ is_near_length length }
{
    length.unsigned_abs() <= LONGEST_SAID
}

/// Whether b lies between a and c, or is one of them.
fn is_in_order(a: i64, b: i64, c: i64) -> bool
    ensures { result ≡ is_in_order a b c }
{
    (a <= b && b <= c) || (c <= b && b <= a)
}
