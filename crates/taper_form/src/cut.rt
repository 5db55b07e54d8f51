//! A cut along a taper: where its line begins, its four moves, and why it can't be made.
ghost use Rattle.std.specs.Prelude.{◌≡◌, None};
ghost use Rattle.nc_number.specs.Position.{IsPosition};
ghost use Rattle.taper_form.specs.Cuts.{begin_of, cut_blocks, IsNearCut, is_past, is_crossed, place_fault, line_fault, cut_fault};

use crate::kind::TaperKind;
use nc_number::{LONGEST_SAID, Point};
use plain_block::{Course, PlainBlock};
use plain_form::PlainCause;

/// A cut along a taper, from where the tool stands and back. Lengths are in 0.001 mm, X is a diameter.
#[derive(Clone, Copy, Debug, PartialEq, Eq)]
pub struct TaperCut {
    /// The cycle.
    pub kind: TaperKind,
    /// Where it starts and ends.
    pub start: Point,
    /// Where the taper's line ends: X and Z.
    pub target: Point,
    /// How much farther the line begins than it ends: along X as a radius for G90, along Z for G94.
    pub taper: i64,
}

/// Whether a start lies between two other places.
fn is_past(start: i64, begin: i64, target: i64) -> bool
    ensures { result ≡ is_past start begin target }
{
    (begin < start && start < target) || (target < start && start < begin)
}

impl TaperCut {
    /// Where the taper's line begins: at the start's Z for G90, at its X for G94.
    pub fn begin(&self) -> Point
        requires { IsNearCut self.now }
        ensures { result ≡ begin_of self.now }
    {
        match self.kind {
            TaperKind::Turning => Point {
                x: self.target.x + (self.taper + self.taper),
                z: self.start.z,
            },
            TaperKind::Facing => Point {
                x: self.start.x,
                z: self.target.z + self.taper,
            },
        }
    }

    /// Whether the start lies between the taper's begin and its end, so that a move would cross it.
    fn is_crossed(&self, begin: &Point) -> bool
        ensures { result ≡ is_crossed self.now begin.now }
    {
        match self.kind {
            TaperKind::Turning => is_past(self.start.x, begin.x, self.target.x),
            TaperKind::Facing => is_past(self.start.z, begin.z, self.target.z),
        }
    }

    /// Why its line can't be cut: it begins farther off than a position may lie, or on the other side
    /// of the start than it ends.
    fn line_fault(&self, begin: &Point) -> Option<PlainCause>
        ensures { result ≡ line_fault self.now begin.now }
    {
        if !begin.is_position() || self.is_crossed(begin) {
            Some(PlainCause::Range(b'R'))
        } else {
            None
        }
    }

    /// Why its end can't be reached: X or Z is farther off than a position may lie.
    fn place_fault(&self) -> Option<PlainCause>
        ensures fault { result ≡ place_fault self.now }
        ensures position { result ≡ None → IsPosition self.now.target }
    {
        if self.target.is_position() {
            return None;
        }
        let across = Point {
            x: self.target.x,
            z: 0,
        };
        if across.is_position() {
            Some(PlainCause::Range(b'Z'))
        } else {
            Some(PlainCause::Range(b'X'))
        }
    }

    /// Why it can't be made.
    pub fn fault(&self) -> Option<PlainCause>
        ensures fault { result ≡ cut_fault self.now }
        ensures near { result ≡ None → IsNearCut self.now }
    {
        if let Some(cause) = self.place_fault() {
            let cause: PlainCause = cause;
            return Some(cause);
        }
        if self.taper.unsigned_abs() > LONGEST_SAID {
            return Some(PlainCause::Range(b'R'));
        }
        let begin = self.begin();
        self.line_fault(&begin)
    }

    /// Its moves: a rapid to where the line begins, the cut along it, the cut off the part, and the
    /// rapid back to the start.
    pub fn blocks(&self) -> [PlainBlock; 4]
        requires { IsNearCut self.now }
        ensures { result ≡ cut_blocks self.now }
    {
        let begin = self.begin();
        match self.kind {
            TaperKind::Turning => [
                PlainBlock::across_to(Course::Rapid, begin.x),
                PlainBlock::straight_to(Course::Cut, &self.target),
                PlainBlock::across_to(Course::Cut, self.start.x),
                PlainBlock::along_to(Course::Rapid, self.start.z),
            ],
            TaperKind::Facing => [
                PlainBlock::along_to(Course::Rapid, begin.z),
                PlainBlock::straight_to(Course::Cut, &self.target),
                PlainBlock::along_to(Course::Cut, self.start.z),
                PlainBlock::across_to(Course::Rapid, self.start.x),
            ],
        }
    }
}
