//! How a contour of a tape is seen: with X and Z exchanged where passes run across, and mirrored so
//! that the part lies at smaller X and the passes lead to smaller Z.
ghost use Rattle.std.specs.Prelude.{◌≡◌, ◌≤◌, ◌++◌, ◌∷◌, [], OnOk, unsigned_abs, IfSome};
ghost use Rattle.nc_number.specs.declared.limits.TheConstants.{LONGEST_SAID};
ghost use Rattle.arc_contour.specs.Bounds.{IsWritten, IsPieceWithin};
ghost use Rattle.rough_forms.specs.Frames.{signed, signed_if, sense_of, signed_point, seen, seen_round, seen_piece, arc, told_round, told_course, told_move, told, IsSmallLeg, IsSmallMove};

use crate::seen::{Leg, SeenMove};
use arc_contour::{Piece, Way};
use nc_number::Point;
use plain_block::{ArcCentre, Course, PlainBlock};
use std::alloc::AllocError;

/// Whether a length is seen as it stands on the tape.
#[derive(Clone, Copy, Debug, PartialEq, Eq)]
pub enum Sight {
    /// As it stands.
    Plain,
    /// With the other sign.
    Mirrored,
}

/// How a contour of a tape is seen.
#[derive(Clone, Copy, Debug, PartialEq, Eq)]
pub struct Frame {
    /// Which way the passes run: X and Z are exchanged where they run across.
    pub way: Way,
    /// How lengths across the passes are seen: mirrored if the part lies at greater ones, as in a
    /// bore.
    pub across: Sight,
    /// How lengths along the passes are seen: mirrored if the passes lead to greater ones.
    pub along: Sight,
}

impl Frame {
    /// A point of the tape, as it is seen.
    pub fn seen(&self, point: &Point) -> Point
        requires { IsWritten point.now }
        ensures point { result ≡ seen self.now point.now }
        ensures near { IsWritten result }
    {
        match self.way {
            Way::Along => self.signed_point(point.x, point.z),
            Way::Across => self.signed_point(point.z, point.x),
        }
    }

    /// The point so far across and along the passes, as it is seen.
    fn signed_point(&self, across: i64, along: i64) -> Point
        requires across { unsigned_abs across ≤ LONGEST_SAID }
        requires along { unsigned_abs along ≤ LONGEST_SAID }
        ensures point { result ≡ signed_point self.now across along }
        ensures near { IsWritten result }
    {
        Point {
            x: signed(self.across, across),
            z: signed(self.along, along),
        }
    }

    /// A piece of a contour of the tape, as it is seen.
    #[tactic(auto, unfolding(arc_contour::specs::Bounds::IsPieceWithin))]
    pub fn seen_piece(&self, piece: &Piece) -> Piece
        requires { IsPieceWithin LONGEST_SAID piece.now }
        ensures piece { result ≡ seen_piece self.now piece.now }
        ensures near { IsPieceWithin LONGEST_SAID result }
    {
        match *piece {
            Piece::Line { to } => Piece::Line { to: self.seen(&to) },
            Piece::Arc {
                clockwise,
                to,
                i,
                k,
            } => self.seen_round(clockwise, &to, i, k),
        }
    }

    /// An arc of a contour of the tape, as it is seen.
    #[tactic(auto, unfolding(arc_contour::specs::Bounds::IsPieceWithin))]
    fn seen_round(&self, clockwise: bool, to: &Point, i: i64, k: i64) -> Piece
        requires to { IsWritten to.now }
        requires i { unsigned_abs i ≤ LONGEST_SAID }
        requires k { unsigned_abs k ≤ LONGEST_SAID }
        ensures piece { result ≡ seen_round self.now clockwise to.now i k }
        ensures near { IsPieceWithin LONGEST_SAID result }
    {
        let clockwise = self.sense(clockwise);
        match self.way {
            Way::Along => Piece::Arc {
                clockwise,
                to: self.seen(to),
                i: signed(self.across, i),
                k: signed(self.along, k),
            },
            Way::Across => Piece::Arc {
                clockwise: !clockwise,
                to: self.seen(to),
                i: signed(self.across, k),
                k: signed(self.along, i),
            },
        }
    }

    /// The sense of an arc behind both mirrors.
    fn sense(&self, clockwise: bool) -> bool
        ensures { result ≡ sense_of self.now.across (sense_of self.now.along clockwise) }
    {
        sense_of(self.across, sense_of(self.along, clockwise))
    }

    /// Puts a move over a contour, as a block of the tape.
    pub(crate) fn push(&self, it: &SeenMove, blocks: &mut Vec<PlainBlock>) -> Result<(), AllocError>
        requires { IsSmallMove it.now }
        ensures ok { OnOk result (blocks.new.items ≡ blocks.old.items ++ told self.now it.now ∷ []) }
    {
        let course: Course = self.told_course(&it.leg);
        let across = signed_if(self.across, it.x);
        let along = signed_if(self.along, it.z);
        blocks.push(told_move(self.way, course, across, along))?;
        Ok(())
    }

    /// How a block of the tape moves.
    #[tactic(auto, unfolding(crate::specs::Frames::IsSmallLeg))]
    fn told_course(&self, leg: &Leg) -> Course
        requires { IsSmallLeg leg.now }
        ensures { result ≡ told_course self.now leg.now }
    {
        match *leg {
            Leg::Rapid => Course::Rapid,
            Leg::Cut => Course::Cut,
            Leg::Round { clockwise, i, k } => told_round(
                self.way,
                self.sense(clockwise),
                signed(self.across, i),
                signed(self.along, k),
            ),
        }
    }
}

/// An arc of the tape, from its I and K across and along the passes.
fn told_round(way: Way, clockwise: bool, across: i64, along: i64) -> Course
    ensures { result ≡ told_round way clockwise across along }
{
    match way {
        Way::Along => arc(clockwise, across, along),
        Way::Across => arc(!clockwise, along, across),
    }
}

/// An arc by I and K.
fn arc(clockwise: bool, i: i64, k: i64) -> Course
    ensures { result ≡ arc clockwise i k }
{
    Course::Arc {
        clockwise,
        centre: ArcCentre::Offset { i, k },
    }
}

/// A block of the tape, from where it leads across and along the passes.
fn told_move(way: Way, course: Course, across: Option<i64>, along: Option<i64>) -> PlainBlock
    ensures { result ≡ told_move way course across along }
{
    match way {
        Way::Along => PlainBlock::Move {
            course,
            x: across,
            z: along,
        },
        Way::Across => PlainBlock::Move {
            course,
            x: along,
            z: across,
        },
    }
}

/// A length, as it is seen, or as the tape has one that is seen.
fn signed(sight: Sight, length: i64) -> i64
    requires { unsigned_abs length ≤ 4000000000000000 }
    ensures signed { result ≡ signed sight length }
    ensures near { unsigned_abs result ≡ unsigned_abs length }
{
    match sight {
        Sight::Plain => length,
        Sight::Mirrored => -length,
    }
}

/// A length if there is one, as it is seen.
fn signed_if(sight: Sight, length: Option<i64>) -> Option<i64>
    requires { IfSome length (λ l. unsigned_abs l ≤ 4000000000000000) }
    ensures { result ≡ signed_if sight length }
{
    match length {
        Some(length) => Some(signed(sight, length)),
        None => None,
    }
}

/// The sense of an arc behind a mirror.
fn sense_of(sight: Sight, clockwise: bool) -> bool
    ensures { result ≡ sense_of sight clockwise }
{
    match sight {
        Sight::Plain => clockwise,
        Sight::Mirrored => !clockwise,
    }
}
