//! What a text of zones asks for of a history: the boxes of its segments, or what is hit in them move
//! by move. How they are found is in zone_check.
ghost use Rattle.std.specs.Prelude.{◌≡◌, ◌≤◌, ◌++◌, length};
ghost use Rattle.nc_number.specs.declared.limits.TheConstants.{MOST_RECORDS};
ghost use Rattle.nc_restart.specs.Pair.{opening_of, tapes_in};
ghost use Rattle.nc_verify.specs.Printed.{IsPut};
ghost use Rattle.two_path.specs.Histories.{IsLegal};
ghost use Rattle.zone_cell.specs.HitLines.{hit_count};
ghost use Rattle.zone_cell.specs.Lines.{end_text};
ghost use Rattle.lathe_calls.specs.Answers.{Ends};
ghost use Rattle.zone_calls.specs.Zoned.{IsZonedOf, findings_text, judged_text, last_text, races_line, unfinished_text, zones_text};

use lathe_calls::{Status, status_behind};
use move_list::{Reason, end_lines};
use nc_outside::{PutFault, Sink};
use nc_verify::{Verified, put_piece};
use race_report::{head_line, races};
use run_records::EntryList;
use std::alloc::Global;
use text_pieces::Piece;
use zone_cell::{Finding, Plan, Zones};
use zone_check::{boxes, findings, write_end, write_findings, write_zones};
use zone_moves::Cell;

/// Writes what is asked for of a history of a pair that ended so, and gives the status: 0; 5 if the
/// sink failed; or 12 if memory ran out.
///
/// What is hit move by move is told with the number of the pair's races, if it has any: its moves
/// are those of this history, and another timing makes others.
pub fn tell_plan<K: Sink>(
    alloc: Global,
    plan: &Plan,
    pair: &Verified,
    entries: &EntryList,
    reason: &Reason,
    out: &mut K,
) -> u8
    requires legal { IsLegal (tapes_in pair.now) (opening_of pair.now) entries.now.items }
    requires few { length entries.now.items ≤ MOST_RECORDS }
    ensures { Ends (IsZonedOf plan.now pair.now entries.now.items reason.now) (K.state out.old) (K.state out.new) result }
{
    match plan {
        Plan::Areas(zones) => {
            let put = put_zones(alloc, zones, pair, entries, out);
            status_behind(put, Status::Done as u8)
        }
        Plan::Moves(cell) => tell_moves(alloc, cell, pair, entries, reason, out),
    }
}

/// Writes what is hit in a history, move by move, and gives the status.
fn tell_moves<K: Sink>(
    alloc: Global,
    cell: &Cell,
    pair: &Verified,
    entries: &EntryList,
    reason: &Reason,
    out: &mut K,
) -> u8
    requires legal { IsLegal (tapes_in pair.now) (opening_of pair.now) entries.now.items }
    requires few { length entries.now.items ≤ MOST_RECORDS }
    ensures { Ends (IsZonedOf (Plan.Moves cell.now) pair.now entries.now.items reason.now)
        (K.state out.old) (K.state out.new) result }
{
    match races(alloc, pair) {
        Ok(list) => {
            let races = list.as_slice().len() as u64;
            let put = put_findings(alloc, cell, pair, entries, reason, races, out);
            status_behind(put, Status::Done as u8)
        }
        Err(_) => Status::NoMemory as u8,
    }
}

/// Writes the zones of a history. Errors: the output failed, or out of memory.
fn put_zones<K: Sink>(
    alloc: Global,
    zones: &Zones,
    pair: &Verified,
    entries: &EntryList,
    out: &mut K,
) -> Result<(), PutFault>
    requires legal { IsLegal (tapes_in pair.now) (opening_of pair.now) entries.now.items }
    requires few { length entries.now.items ≤ MOST_RECORDS }
    ensures { IsPut (K.state out.old) (K.state out.new)
        (zones_text zones.now pair.now entries.now.items) result }
{
    match boxes(alloc, pair, entries, zones) {
        Ok(list) => write_zones(list.as_slice(), out),
        Err(_) => Err(PutFault::NoMemory),
    }
}

/// Writes what is hit in a history of a pair with so many races, move by move. Errors: the output
/// failed, or out of memory.
fn put_findings<K: Sink>(
    alloc: Global,
    cell: &Cell,
    pair: &Verified,
    entries: &EntryList,
    reason: &Reason,
    races: u64,
    out: &mut K,
) -> Result<(), PutFault>
    requires legal { IsLegal (tapes_in pair.now) (opening_of pair.now) entries.now.items }
    requires few { length entries.now.items ≤ MOST_RECORDS }
    ensures { IsPut (K.state out.old) (K.state out.new)
        (findings_text cell.now pair.now entries.now.items reason.now races) result }
{
    match findings(alloc, pair, entries, cell) {
        Ok(list) => put_judged(list.as_slice(), entries.len() as u64, reason, races, out),
        Err(_) => Err(PutFault::NoMemory),
    }
}

/// Writes what is hit in the segments of a run with so many records, which ended so, of a pair with
/// so many races.
#[tactic(auto, unfolding(crate::specs::Zoned::judged_text))]
fn put_judged<K: Sink>(
    findings: &[Finding],
    count: u64,
    reason: &Reason,
    races: u64,
    out: &mut K,
) -> Result<(), PutFault>
    ensures { IsPut (K.state out.old) (K.state out.new) (judged_text findings.now count reason.now races) result }
{
    match write_findings(findings, out) {
        Ok(()) => put_ending(findings, count, reason, races, out),
        Err(fault) => Err(fault),
    }
}

/// Writes the last lines: why a run ended that both paths did not finish, how many races there are,
/// and whether anything is hit.
fn put_ending<K: Sink>(
    findings: &[Finding],
    count: u64,
    reason: &Reason,
    races: u64,
    out: &mut K,
) -> Result<(), PutFault>
    ensures { IsPut (K.state out.old) (K.state out.new)
        (last_text count reason.now races (hit_count findings.now)) result }
{
    match put_piece(out, &unfinished_lines(count, reason)) {
        Ok(()) => put_hits(findings, races, out),
        Err(fault) => Err(fault),
    }
}

/// Writes how many races there are, if there are any, and whether anything is hit.
fn put_hits<K: Sink>(findings: &[Finding], races: u64, out: &mut K) -> Result<(), PutFault>
    ensures { IsPut (K.state out.old) (K.state out.new)
        (races_line races ++ end_text (hit_count findings.now)) result }
{
    match put_piece(out, &races_line(races)) {
        Ok(()) => write_end(findings, out),
        Err(fault) => Err(fault),
    }
}

/// The line of how many races there are; none if there is none.
#[tactic(auto, unfolding(crate::specs::Zoned::races_line))]
fn races_line(races: u64) -> Piece
    ensures { result ≡ races_line races }
{
    if races == 0 {
        Piece::empty()
    } else {
        head_line(races)
    }
}

/// The lines that say why a run ended that both paths did not finish; none of one that they did.
#[tactic(auto, unfolding(crate::specs::Zoned::unfinished_text))]
fn unfinished_lines(count: u64, reason: &Reason) -> Piece
    ensures { result ≡ unfinished_text count reason.now }
{
    match reason {
        Reason::Done => Piece::empty(),
        Reason::Alarm(_) => end_lines(count, reason),
        Reason::Stopped => end_lines(count, reason),
        Reason::Full => end_lines(count, reason),
        Reason::DiskFault => end_lines(count, reason),
        Reason::TurretFault(_) => end_lines(count, reason),
    }
}
