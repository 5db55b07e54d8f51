//! The events of a run, as C has them: the layout and the numbers are those of `include/lathe.h` and
//! of examples/simulator.py, and change with them. How each event comes of a turn is defined in
//! specs/Events.antt, with the numbers once more. handing.rt, happening.rt, listing.rt and
//! ordering.rt use it.
ghost use Rattle.std.specs.Prelude.{◌≡◌};
ghost use Rattle.lathe_calls.specs.Events.{alarm_event, arc_event, bare_event, coded_event, counting_event, flag, move_event, moving_event, placed_event, begin_stamp, home_event, shift_event, way_event};

use nc_moves::{Alarm, Centre, Move};
use nc_number::{Path, Point};

/// What an event is.
#[derive(Clone, Copy, Debug, PartialEq, Eq)]
pub enum Kind {
    /// The turret of the path stands here before its first block.
    Placed = 0,
    /// A rapid move to a point.
    Rapid = 1,
    /// A straight cut to a point.
    Feed = 2,
    /// A cut along a thread to a point.
    Thread = 3,
    /// A cut along an arc to a point.
    Arc = 4,
    /// A dwell.
    Dwell = 5,
    /// The speed of the spindle.
    Speed = 6,
    /// The highest speed of the spindle.
    Limit = 7,
    /// The tool and its offset are taken.
    Tool = 8,
    /// An auxiliary code.
    Aux = 9,
    /// A block without a move.
    Block = 10,
    /// The path came to its wait, and waits.
    Arrived = 11,
    /// The path came to its wait, at which the other one waits, and both go on.
    Met = 12,
    /// The path has ended.
    Ended = 13,
    /// The path raised an alarm, which stops both.
    Alarm = 14,
    /// The block of the path read a shared variable, and is not done yet. It makes no record.
    Read = 15,
    /// The shift in force, where it begins and where a block changed it.
    Shift = 16,
    /// Where the path comes home.
    Home = 17,
    /// The block changed whether the spindle keeps a surface speed, and says no speed.
    Way = 18,
}

/// An event of a run. What its kind has no use for is 0. Points are in machine coordinates, lengths
/// in 0.001 mm.
#[repr(C)]
#[derive(Clone, Copy, Debug, PartialEq, Eq)]
pub struct Event {
    /// How many records the run has after the turn of the event, with that of the turn; a read
    /// makes none. 0 where the turret is placed.
    pub records: u32,
    /// The line of the path's tape; 0 where the turret is placed.
    pub line: u32,
    /// The path, 1 or 2.
    pub path: u8,
    /// What it is, as the number of a `Kind`.
    pub kind: u8,
    /// The code of a wait or an auxiliary code, the tool and its offset, or the number of an alarm.
    pub code: u16,
    /// Whether a feed is per revolution, 1 or 0.
    pub per_revolution: u8,
    /// Whether an arc goes clockwise, 1 or 0.
    pub clockwise: u8,
    /// Whether an arc is given by its centre, and not by its radius, 1 or 0.
    pub by_centre: u8,
    /// Whether a speed is in metres per minute at the surface, 1 or 0.
    pub at_surface: u8,
    /// The milliseconds of a dwell, the speed of the spindle, its highest speed, or the number of a
    /// variable that was read.
    pub amount: u64,
    /// Where the turret stands, or comes to, along X.
    pub x: i64,
    /// Where the turret stands, or comes to, along Z.
    pub z: i64,
    /// Of an arc the way from its start to its centre along X, or its radius.
    pub i: i64,
    /// Of an arc the way from its start to its centre along Z.
    pub k: i64,
    /// The feed, the lead of a thread, or what a macro alarm was given, in 0.000001.
    pub value: i64,
}

/// When and where an event is: the records with its own, its path, and the line of that path's
/// tape.
#[derive(Clone, Copy, Debug, PartialEq, Eq)]
pub(crate) struct Stamp {
    /// How many records there are with the event's own.
    pub(crate) records: u32,
    /// The path of the event.
    pub(crate) path: Path,
    /// The line of that path's tape.
    pub(crate) line: u32,
}

/// An event that tells nothing but its kind.
pub(crate) fn bare_event(at: Stamp, kind: Kind) -> Event
    ensures { result ≡ bare_event at kind }
{
    Event {
        records: at.records,
        line: at.line,
        path: at.path.number(),
        kind: kind as u8,
        code: 0,
        per_revolution: 0,
        clockwise: 0,
        by_centre: 0,
        at_surface: 0,
        amount: 0,
        x: 0,
        z: 0,
        i: 0,
        k: 0,
        value: 0,
    }
}

/// An event with a code: of a wait, an auxiliary code, a tool, or the number of an alarm.
pub(crate) fn coded_event(at: Stamp, kind: Kind, code: u16) -> Event
    ensures { result ≡ coded_event at kind code }
{
    Event {
        code,
        ..bare_event(at, kind)
    }
}

/// When and where a path begins.
pub(crate) fn begin_stamp(path: Path) -> Stamp
    ensures { result ≡ begin_stamp path }
{
    Stamp {
        records: 0,
        path,
        line: 0,
    }
}

/// The event that the turret of a path stands at a point before its first block.
pub(crate) fn placed_event(path: Path, to: Point) -> Event
    ensures { result ≡ placed_event path to }
{
    moving_event(begin_stamp(path), Kind::Placed, to)
}

/// The event that a path comes home at a point.
pub(crate) fn home_event(path: Path, at: Point) -> Event
    ensures { result ≡ home_event path at }
{
    moving_event(begin_stamp(path), Kind::Home, at)
}

/// The event that a shift is in force.
pub(crate) fn shift_event(at: Stamp, by: Point) -> Event
    ensures { result ≡ shift_event at by }
{
    moving_event(at, Kind::Shift, by)
}

/// The event that the spindle keeps a surface speed from here on, or no longer.
pub(crate) fn way_event(at: Stamp, surface: bool) -> Event
    ensures { result ≡ way_event at surface }
{
    Event {
        at_surface: flag(surface),
        ..bare_event(at, Kind::Way)
    }
}

/// The event that a path raised an alarm.
pub(crate) fn alarm_event(at: Stamp, alarm: &Alarm) -> Event
    ensures { result ≡ alarm_event at alarm.now }
{
    Event {
        value: alarm.value.micro(),
        ..coded_event(at, Kind::Alarm, u16::from(alarm.cause))
    }
}

/// A truth value as C has it: 1 or 0.
fn flag(is: bool) -> u8
    ensures { result ≡ flag is }
{
    if is { 1 } else { 0 }
}

/// An event that leads to a point.
fn moving_event(at: Stamp, kind: Kind, to: Point) -> Event
    ensures { result ≡ moving_event at kind to }
{
    Event {
        x: to.x,
        z: to.z,
        ..bare_event(at, kind)
    }
}

/// An event with an amount: milliseconds, a speed, or the number of a variable.
pub(crate) fn counting_event(at: Stamp, kind: Kind, amount: u64) -> Event
    ensures { result ≡ counting_event at kind amount }
{
    Event {
        amount,
        ..bare_event(at, kind)
    }
}

/// The event of a move along an arc, whose direction and feed are not told yet.
fn arc_event(at: Stamp, to: Point, centre: Centre) -> Event
    ensures { result ≡ arc_event at to centre }
{
    let arc = moving_event(at, Kind::Arc, to);
    match centre {
        Centre::Offset { i, k } => Event {
            by_centre: 1,
            i,
            k,
            ..arc
        },
        Centre::Radius { r } => Event { i: r, ..arc },
    }
}

/// The event of a move of a block.
pub(crate) fn move_event(at: Stamp, what: &Move) -> Event
    ensures { result ≡ move_event at what.now }
{
    match *what {
        Move::Rapid { to } => moving_event(at, Kind::Rapid, to),
        Move::Feed { to, feed, per_rev } => Event {
            per_revolution: flag(per_rev),
            value: feed.micro(),
            ..moving_event(at, Kind::Feed, to)
        },
        Move::Thread { to, lead } => Event {
            value: lead.micro(),
            ..moving_event(at, Kind::Thread, to)
        },
        Move::Arc {
            clockwise,
            to,
            centre,
            feed,
            per_rev,
        } => Event {
            per_revolution: flag(per_rev),
            clockwise: flag(clockwise),
            value: feed.micro(),
            ..arc_event(at, to, centre)
        },
        Move::Dwell { ms } => counting_event(at, Kind::Dwell, ms),
        Move::Speed { surface, s } => Event {
            at_surface: flag(surface),
            ..counting_event(at, Kind::Speed, u64::from(s))
        },
        Move::Limit { s } => counting_event(at, Kind::Limit, u64::from(s)),
        Move::Tool { t } => coded_event(at, Kind::Tool, t),
        Move::Aux { m } => coded_event(at, Kind::Aux, m),
    }
}
