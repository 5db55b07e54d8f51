//! Straight cuts: lines (G01) and threads (G32). block.rt of this crate calls `line` and `thread`;
//! circle.rt calls `is_feed_zero`.
ghost use Rattle.std.specs.Prelude.{◌≡◌};
ghost use Rattle.nc_number.specs.Arithmetic.{is_zero};
ghost use Rattle.motion_track.specs.Cut.{line_of, thread_of};

use crate::fault::MotionFault;
use nc_moves::Move;
use nc_number::{Cause, Point, Value};

/// A straight cut to this point, at a feed by the revolution (`per_rev`) or by the minute; alarm 44
/// exactly where the feed is 0.
pub fn line(to: Point, feed: Value, per_rev: bool) -> Result<Move, MotionFault>
    ensures { result ≡ line_of to feed per_rev }
{
    if is_feed_zero(&feed) {
        return Err(MotionFault::of(Cause::FeedZero));
    }
    Ok(Move::Feed { to, feed, per_rev })
}

/// A straight thread to this point; alarm 44 exactly where the lead is 0.
pub fn thread(to: Point, lead: Value) -> Result<Move, MotionFault>
    ensures { result ≡ thread_of to lead }
{
    if is_feed_zero(&lead) {
        return Err(MotionFault::of(Cause::FeedZero));
    }
    Ok(Move::Thread { to, lead })
}

/// Whether a cut at this feed is alarm 44: it is 0.
pub fn is_feed_zero(feed: &Value) -> bool
    ensures { result ≡ is_zero feed.now }
{
    feed.micro() == 0
}
