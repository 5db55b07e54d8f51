//! The text of the trace of a history: how both paths begin, then the lines of each record, which is
//! done again once, and the end. It is defined in specs/Trace.antt.
ghost use Rattle.std.specs.Prelude.{◌≡◌, ◌≤◌, ◌<◌, [], ◌∷◌, ◌++◌, length, OnOk};
ghost use Rattle.nc_number.specs.declared.limits.TheConstants.{MOST_RECORDS};
ghost use Rattle.nc_number.specs.declared.path.Path.TheVariants as Path;
ghost use Rattle.nc_verify.specs.Printed.{IsPut};
ghost use Rattle.path_state.specs.Looks.{shift_now};
ghost use Rattle.path_state.specs.Opening.{point_of};
ghost use Rattle.two_path.specs.Machine.{without_reads};
ghost use Rattle.two_path.specs.Turns.{tapes_of};
ghost use Rattle.two_path.specs.Histories.{IsLegal, IsNext, behind_entry};
ghost use Rattle.two_path.specs.Joined.{AreAtTheirWaits};
ghost use Rattle.two_path.specs.Again.{IsDoneAgain, turn_of_entry};
ghost use Rattle.move_list.specs.EndText.{end_text};
ghost use Rattle.two_path.specs.Start.{machine_at_start};
ghost use Rattle.trace_list.specs.Trace.{begin_lines, lines_of, met_after, trace_text};
ghost use Rattle.trace_list.specs.TraceText.{head_text, lines_text};
ghost use Rattle.trace_list.specs.TraceText as said;

use crate::blocks::{met_after, put_turn};
use crate::lines::{at_line, head_line, home_line, shift_line};
use crate::looking::{look_of, standing_of};
use cell_settings::Settings;
use move_list::{Reason, end_lines};
use nc_number::{Both, Path, Point};
use nc_outside::{PutFault, Sink};
use nc_verify::{Verified, put_piece};
use path_state::PathState;
use run_records::{Entry, EntryList};
use std::alloc::Global;
use tape_flow::Flow;
use two_path::{Machine, Turn, histories_are_runs};

/// The reference position that the settings have for the path.
fn home_of(settings: &Settings, path: Path) -> Point
    ensures { result ≡ point_of path settings.now.home }
{
    settings.home[path.index()]
}

/// The reference position of each path.
pub fn homes_of(settings: &Settings) -> Both<Point>
    ensures one { result.one ≡ point_of Path.One settings.now.home }
    ensures two { result.two ≡ point_of Path.Two settings.now.home }
{
    Both {
        one: home_of(settings, Path::One),
        two: home_of(settings, Path::Two),
    }
}

/// Puts where the turret of a path begins.
fn put_at<K: Sink>(sink: &mut K, path: Path, at: Point) -> Result<(), PutFault>
    ensures { IsPut (K.state sink.old) (K.state sink.new) (lines_text (said.At path at ∷ [])) result }
{
    put_piece(sink, &at_line(path, at))
}

/// Puts the reference position of a path.
fn put_home<K: Sink>(sink: &mut K, path: Path, home: Point) -> Result<(), PutFault>
    ensures { IsPut (K.state sink.old) (K.state sink.new) (lines_text (said.Home path home ∷ [])) result }
{
    put_piece(sink, &home_line(path, home))
}

/// Puts the shift with which a path begins.
fn put_first_shift<K: Sink>(sink: &mut K, path: Path, by: Point) -> Result<(), PutFault>
    ensures { IsPut (K.state sink.old) (K.state sink.new) (lines_text (said.Shift path 0 by ∷ [])) result }
{
    put_piece(sink, &shift_line(path, 0, by))
}

/// Puts the reference position of a path, and the shift with which it begins.
fn put_offsets<K: Sink>(
    sink: &mut K,
    path: Path,
    at: &PathState,
    home: Point,
) -> Result<(), PutFault>
    ensures { IsPut (K.state sink.old) (K.state sink.new)
        (lines_text (said.Home path home ∷ said.Shift path 0 (shift_now at.now) ∷ [])) result }
{
    match put_home(sink, path, home) {
        Ok(()) => put_first_shift(sink, path, look_of(at).shift),
        Err(fault) => Err(fault),
    }
}

/// Puts how a path begins.
fn put_path<K: Sink>(sink: &mut K, path: Path, at: &PathState, home: Point) -> Result<(), PutFault>
    ensures { IsPut (K.state sink.old) (K.state sink.new) (lines_text (begin_lines path home at.now)) result }
{
    match put_at(sink, path, at.position()) {
        Ok(()) => put_offsets(sink, path, at, home),
        Err(fault) => Err(fault),
    }
}

/// Puts how path 1 begins.
fn put_first<K: Sink>(sink: &mut K, machine: &Machine, home: Point) -> Result<(), PutFault>
    ensures { IsPut (K.state sink.old) (K.state sink.new)
        (lines_text (begin_lines Path.One home machine.now.machine.paths.one.path)) result }
{
    put_path(sink, Path::One, machine.path(Path::One), home)
}

/// Puts how path 2 begins.
fn put_second<K: Sink>(sink: &mut K, machine: &Machine, home: Point) -> Result<(), PutFault>
    ensures { IsPut (K.state sink.old) (K.state sink.new)
        (lines_text (begin_lines Path.Two home machine.now.machine.paths.two.path)) result }
{
    put_path(sink, Path::Two, machine.path(Path::Two), home)
}

/// Puts how both paths begin.
fn put_paths<K: Sink>(sink: &mut K, machine: &Machine, homes: Both<Point>) -> Result<(), PutFault>
    ensures { IsPut (K.state sink.old) (K.state sink.new)
        (lines_text (begin_lines Path.One homes.one machine.now.machine.paths.one.path
        ++ begin_lines Path.Two homes.two machine.now.machine.paths.two.path)) result }
{
    match put_first(sink, machine, homes.one) {
        Ok(()) => put_second(sink, machine, homes.two),
        Err(fault) => Err(fault),
    }
}

/// Puts the first line.
fn put_head<K: Sink>(sink: &mut K) -> Result<(), PutFault>
    ensures { IsPut (K.state sink.old) (K.state sink.new) head_text result }
{
    put_piece(sink, &head_line())
}

/// Puts the first line, and how both paths begin.
fn put_start<K: Sink>(sink: &mut K, machine: &Machine, homes: Both<Point>) -> Result<(), PutFault>
    ensures { IsPut (K.state sink.old) (K.state sink.new)
        (head_text ++ lines_text (begin_lines Path.One homes.one machine.now.machine.paths.one.path
        ++ begin_lines Path.Two homes.two machine.now.machine.paths.two.path)) result }
{
    match put_head(sink) {
        Ok(()) => put_paths(sink, machine, homes),
        Err(fault) => Err(fault),
    }
}

/// Puts the last lines.
fn put_last<K: Sink>(sink: &mut K, count: u64, reason: &Reason) -> Result<(), PutFault>
    ensures { IsPut (K.state sink.old) (K.state sink.new) (end_text count reason.now) result }
{
    put_piece(sink, &end_lines(count, reason))
}

/// Does a record again that is legal there, and gives its turn.
fn done_again(machine: &mut Machine, left: &Flow, right: &Flow, entry: &Entry) -> Turn
    requires legal { IsNext (tapes_of left.now right.now) machine.old.machine entry.now }
    requires room { 0 < machine.old.room }
    requires few { machine.old.machine.count ≤ MOST_RECORDS }
    requires no_reads { without_reads machine.old.machine ≡ machine.old.machine }
    requires waits { AreAtTheirWaits left.now.order right.now.order machine.old.machine }
    ensures done { IsDoneAgain (tapes_of left.now right.now) entry.now machine.old.machine machine.new.machine result }
    ensures no_reads { without_reads machine.new.machine ≡ machine.new.machine }
    ensures waits { AreAtTheirWaits left.now.order right.now.order machine.new.machine }
{
    machine.apply(left, right, entry).unwrap()
}

/// Does a record again for which there is room, and puts its lines. There were `met` meetings
/// before it.
fn put_done<K: Sink>(
    sink: &mut K,
    machine: &mut Machine,
    met: &mut u64,
    left: &Flow,
    right: &Flow,
    entry: &Entry,
) -> Result<(), PutFault>
    requires legal { IsNext (tapes_of left.now right.now) machine.old.machine entry.now }
    requires room { 0 < machine.old.room }
    requires few { machine.old.machine.count ≤ MOST_RECORDS }
    requires few_met { met.old ≤ MOST_RECORDS }
    requires no_reads { without_reads machine.old.machine ≡ machine.old.machine }
    requires waits { AreAtTheirWaits left.now.order right.now.order machine.old.machine }
    ensures put { IsPut (K.state sink.old) (K.state sink.new)
        (lines_text (lines_of (tapes_of left.now right.now) met.old machine.old.machine entry.now)) result }
    ensures machine { OnOk result (machine.new.machine
        ≡ behind_entry (tapes_of left.now right.now) entry.now machine.old.machine) }
    ensures met { OnOk result (met.new
        ≡ met_after met.old (turn_of_entry (tapes_of left.now right.now) entry.now machine.old.machine)) }
    ensures no_reads { OnOk result (without_reads machine.new.machine ≡ machine.new.machine) }
    ensures waits { OnOk result (AreAtTheirWaits left.now.order right.now.order machine.new.machine) }
{
    let before = standing_of(machine, left, right, entry.path);
    let turn = done_again(machine, left, right, entry);
    let after = look_of(machine.path(entry.path));
    let so_far = *met;
    *met = met_after(so_far, &turn);
    put_turn(sink, entry.path, so_far, &before, &after, &turn)
}

/// Makes room for a record that is legal there, does it again, and puts its lines. There were `met`
/// meetings before it.
fn put_again<K: Sink>(
    sink: &mut K,
    machine: &mut Machine,
    met: &mut u64,
    left: &Flow,
    right: &Flow,
    entry: &Entry,
) -> Result<(), PutFault>
    requires legal { IsNext (tapes_of left.now right.now) machine.old.machine entry.now }
    requires few { machine.old.machine.count ≤ MOST_RECORDS }
    requires few_met { met.old ≤ MOST_RECORDS }
    requires no_reads { without_reads machine.old.machine ≡ machine.old.machine }
    requires waits { AreAtTheirWaits left.now.order right.now.order machine.old.machine }
    ensures put { IsPut (K.state sink.old) (K.state sink.new)
        (lines_text (lines_of (tapes_of left.now right.now) met.old machine.old.machine entry.now)) result }
    ensures machine { OnOk result (machine.new.machine
        ≡ behind_entry (tapes_of left.now right.now) entry.now machine.old.machine) }
    ensures met { OnOk result (met.new
        ≡ met_after met.old (turn_of_entry (tapes_of left.now right.now) entry.now machine.old.machine)) }
    ensures no_reads { OnOk result (without_reads machine.new.machine ≡ machine.new.machine) }
    ensures waits { OnOk result (AreAtTheirWaits left.now.order right.now.order machine.new.machine) }
{
    match machine.reserve(1) {
        Ok(()) => put_done(sink, machine, met, left, right, entry),
        Err(_) => Err(PutFault::NoMemory),
    }
}

/// Puts the trace of a history, from its machine before the first record on.
fn put_from<K: Sink>(
    sink: &mut K,
    machine: Machine,
    left: &Flow,
    right: &Flow,
    settings: &Settings,
    entries: &EntryList,
    reason: &Reason,
) -> Result<(), PutFault>
    requires begins { machine.machine ≡ machine_at_start left.now right.now settings.now }
    requires legal { IsLegal (tapes_of left.now right.now)
        (machine_at_start left.now right.now settings.now) entries.now.items }
    requires few { length entries.now.items ≤ MOST_RECORDS }
    ensures { IsPut (K.state sink.old) (K.state sink.new) (trace_text (tapes_of left.now right.now)
        (machine_at_start left.now right.now settings.now) entries.now.items reason.now) result }
{
    histories_are_runs();
    let mut machine = machine;
    let mut met = 0u64;
    let homes = homes_of(settings);
    put_start(sink, &machine, homes)?;
    for index in 0..entries.len() {
        let entry = entries.get(index);
        put_again(sink, &mut machine, &mut met, left, right, &entry)?;
    }
    put_last(sink, entries.len() as u64, reason)
}

/// Puts the trace of a history.
fn put_trace<K: Sink>(
    alloc: Global,
    left: &Flow,
    right: &Flow,
    settings: &Settings,
    entries: &EntryList,
    reason: &Reason,
    sink: &mut K,
) -> Result<(), PutFault>
    requires legal { IsLegal (tapes_of left.now right.now)
        (machine_at_start left.now right.now settings.now) entries.now.items }
    requires few { length entries.now.items ≤ MOST_RECORDS }
    ensures { IsPut (K.state sink.old) (K.state sink.new) (trace_text (tapes_of left.now right.now)
        (machine_at_start left.now right.now settings.now) entries.now.items reason.now) result }
{
    match Machine::new(alloc, left, right, settings) {
        Ok(machine) => put_from(sink, machine, left, right, settings, entries, reason),
        Err(_) => Err(PutFault::NoMemory),
    }
}

/// Writes the trace of a history of the pair: where both turrets begin, and then each event in its
/// place, a line each; the number of records; and how the run ended. The records are done again
/// once, and the text is put line by line.
///
/// It asks for a legal history of at most 4,000,000 records. Errors: those of the sink, which then
/// holds a part of the text, from its start; and out of memory.
pub fn write_trace<K: Sink>(
    alloc: Global,
    verified: &Verified,
    entries: &EntryList,
    reason: Reason,
    sink: &mut K,
) -> Result<(), PutFault>
    requires legal { IsLegal (tapes_of verified.now.left verified.now.right)
        (machine_at_start verified.now.left verified.now.right verified.now.settings) entries.now.items }
    requires few { length entries.now.items ≤ MOST_RECORDS }
    ensures { IsPut (K.state sink.old) (K.state sink.new) (trace_text (tapes_of verified.now.left verified.now.right)
        (machine_at_start verified.now.left verified.now.right verified.now.settings) entries.now.items reason) result }
{
    put_trace(
        alloc,
        verified.left(),
        verified.right(),
        verified.settings(),
        entries,
        &reason,
        sink,
    )
}
