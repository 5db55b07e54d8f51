//! What a threading cycle may not say. Who reads one asks before it asks for the blocks.
ghost use Rattle.std.specs.Prelude.{◌≡◌, ◌≤◌, None, unsigned_abs, int_le, pos};
ghost use Rattle.thread_cycle.specs.Crests.{crest_at_end, crest_at_begin, starts_off};
ghost use Rattle.thread_cycle.specs.Faults.{near_fault_of, pass_fault_of, fault_of};
ghost use Rattle.thread_cycle.specs.Near.{IsNearCycle, is_written, has_near_depths, is_near_cycle};
ghost use Rattle.thread_cycle.specs.Sides.{is_on_both};

use crate::cycle::ThreadCycle;
use nc_number::{LONGEST_SAID, Point};
use plain_block::moved;

/// Why a threading cycle is refused. Of several causes the first in this order is told.
#[derive(Clone, Copy, Debug, PartialEq, Eq)]
pub enum ThreadFault {
    /// What is left for the passes at the whole depth is that depth, or more.
    AllLeft,
    /// A length, a depth or the pull-out is more than a word can say.
    TooLarge,
    /// There is no pass at the whole depth.
    NoPass,
    /// The lead is 0, or less.
    NoLead,
    /// The thread is no longer than its passes at the whole depth begin ahead of the start.
    Short,
    /// The taper is steeper than 45 degrees.
    Steep,
    /// The start is not clear of the crest at both ends of the thread: on its wrong side, or below.
    BelowCrest,
}

impl ThreadCycle {
    /// What a G76 cycle may not say, if it says such a thing.
    pub fn fault(&self) -> Option<ThreadFault>
        ensures fault { result ≡ fault_of self.now }
        ensures fit { result ≡ None → pass_fault_of self.now ≡ None }
    {
        if self.depth <= self.left {
            return Some(ThreadFault::AllLeft);
        }
        self.pass_fault()
    }

    /// What the passes of any cycle can't do, if there is such a thing: also those of G92, which
    /// has one pass and no depth.
    pub fn pass_fault(&self) -> Option<ThreadFault>
        ensures { result ≡ pass_fault_of self.now }
    {
        if self.is_near() {
            self.fault_in_reach()
        } else {
            Some(ThreadFault::TooLarge)
        }
    }

    /// What the passes of a cycle can't do that literals can write.
    fn fault_in_reach(&self) -> Option<ThreadFault>
        requires { IsNearCycle self.now }
        ensures { result ≡ near_fault_of self.now }
    {
        if self.finishing == 0 {
            return Some(ThreadFault::NoPass);
        }
        if self.has_no_lead() {
            return Some(ThreadFault::NoLead);
        }
        if self.whole_length() <= self.whole_infeed() {
            return Some(ThreadFault::Short);
        }
        if self.whole_length() < self.taper.unsigned_abs() {
            return Some(ThreadFault::Steep);
        }
        if self.starts_off() {
            None
        } else {
            Some(ThreadFault::BelowCrest)
        }
    }

    /// Whether literals can write all that the cycle says.
    fn is_near(&self) -> bool
        ensures { result ≡ is_near_cycle self.now }
    {
        is_written(&self.start)
            && is_written(&self.target)
            && self.taper.unsigned_abs() <= LONGEST_SAID
            && self.has_near_depths()
            && self.pull_out <= 99
    }

    /// Whether literals can write the depths.
    fn has_near_depths(&self) -> bool
        ensures { result ≡ has_near_depths self.now }
    {
        self.depth <= LONGEST_SAID
            && self.first <= LONGEST_SAID
            && self.least <= LONGEST_SAID
            && self.left <= LONGEST_SAID
    }

    /// Whether the lead is 0, or less.
    fn has_no_lead(&self) -> bool
        ensures { result ≡ int_le self.now.lead (pos 0) }
    {
        self.lead.micro() <= 0
    }

    /// Whether the start is clear of the crest at both ends of the thread.
    fn starts_off(&self) -> bool
        requires { IsNearCycle self.now }
        ensures { result ≡ starts_off self.now }
    {
        let inner = self.is_inner();
        let end = self.crest_at_end();
        let begin = self.crest_at_begin();
        is_on_both(inner, end, begin, self.start.x)
    }

    /// The X of the crest where the thread ends.
    fn crest_at_end(&self) -> i64
        requires { IsNearCycle self.now }
        ensures crest { result ≡ crest_at_end self.now }
        ensures near { unsigned_abs result ≤ 300000000000 }
    {
        moved(self.is_inner(), self.target.x, 2 * self.depth)
    }

    /// The X of the crest at the start's Z.
    fn crest_at_begin(&self) -> i64
        requires { IsNearCycle self.now }
        ensures { result ≡ crest_at_begin self.now }
    {
        self.crest_at_end() + self.taper + self.taper
    }
}

/// Whether literals can write a point.
fn is_written(point: &Point) -> bool
    ensures { result ≡ is_written point.now }
{
    point.x.unsigned_abs() <= LONGEST_SAID && point.z.unsigned_abs() <= LONGEST_SAID
}

/// Whether an X is on the free side of two others, or there.
fn is_on_both(inner: bool, a: i64, b: i64, x: i64) -> bool
    ensures { result ≡ is_on_both inner a b x }
{
    if inner {
        x <= a && x <= b
    } else {
        a <= x && b <= x
    }
}
