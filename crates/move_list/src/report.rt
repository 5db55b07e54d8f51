//! The report of a history, the answer to `moves` and the end of `run`. Its text is defined in
//! specs/Report.antt, the line of a move in move_text.
ghost use Rattle.std.specs.Prelude.{◌≡◌, ◌≤◌, ◌++◌, length};
ghost use Rattle.std.specs.List.{flat_map};
ghost use Rattle.nc_number.specs.declared.limits.TheConstants.{MOST_RECORDS};
ghost use Rattle.nc_number.specs.declared.path.Path.TheVariants.{One, Two};
ghost use Rattle.nc_verify.specs.Printed.{IsPut};
ghost use Rattle.two_path.specs.Turns.{tapes_of};
ghost use Rattle.two_path.specs.Histories.{IsLegal};
ghost use Rattle.move_list.specs.EndText.{end_text};
ghost use Rattle.two_path.specs.Start.{machine_at_start};
ghost use Rattle.move_list.specs.Report.{head_text, lined_text, path_text, report_text};

use crate::end_line::end_lines;
use crate::turns::history_done;
use cell_settings::Settings;
use move_text::move_line;
use nc_number::{Both, Path};
use nc_outside::{LinedMove, PutFault, Reason, Sink};
use nc_verify::{Verified, put_piece};
use run_records::EntryList;
use std::alloc::Global;
use tape_flow::Flow;
use text_pieces::Piece;

/// The line that says how many moves a path has.
#[tactic(auto, unfolding(crate::specs::Report::head_text))]
fn head_line(path: Path, count: u64) -> Piece
    ensures { result ≡ head_text path count }
{
    let mut piece = Piece::empty();
    piece.add_path(path);
    piece.add(b" moves ");
    piece.add_number(count);
    piece.add(b"\n");
    piece
}

/// Puts the line that says how many moves a path has.
fn put_head<K: Sink>(sink: &mut K, path: Path, count: u64) -> Result<(), PutFault>
    ensures { IsPut (K.state sink.old) (K.state sink.new) (head_text path count) result }
{
    put_piece(sink, &head_line(path, count))
}

/// Puts the line of a move.
fn put_line<K: Sink>(sink: &mut K, made: &LinedMove) -> Result<(), PutFault>
    ensures { IsPut (K.state sink.old) (K.state sink.new) (lined_text made.now) result }
{
    put_piece(sink, &move_line(made.line, &made.what))
}

/// Puts the last lines: how many records there are, and how the run ended.
fn put_end<K: Sink>(sink: &mut K, count: u64, reason: &Reason) -> Result<(), PutFault>
    ensures { IsPut (K.state sink.old) (K.state sink.new) (end_text count reason.now) result }
{
    put_piece(sink, &end_lines(count, reason))
}

/// Puts a line for each move.
fn put_lines<K: Sink>(sink: &mut K, moves: &[LinedMove]) -> Result<(), PutFault>
    ensures { IsPut (K.state sink.old) (K.state sink.new) (flat_map lined_text moves.now) result }
{
    for made in moves {
        put_line(sink, made)?;
    }
    Ok(())
}

/// Puts the lines of a path: how many moves it has, and a line for each.
fn put_path<K: Sink>(sink: &mut K, path: Path, moves: &[LinedMove]) -> Result<(), PutFault>
    ensures { IsPut (K.state sink.old) (K.state sink.new) (path_text path moves.now) result }
{
    match put_head(sink, path, moves.len() as u64) {
        Ok(()) => put_lines(sink, moves),
        Err(fault) => Err(fault),
    }
}

/// Puts the lines of path 2, and the last lines.
fn put_rest<K: Sink>(
    sink: &mut K,
    moves: &[LinedMove],
    count: u64,
    reason: &Reason,
) -> Result<(), PutFault>
    ensures { IsPut (K.state sink.old) (K.state sink.new)
        (path_text Two moves.now ++ end_text count reason.now) result }
{
    match put_path(sink, Path::Two, moves) {
        Ok(()) => put_end(sink, count, reason),
        Err(fault) => Err(fault),
    }
}

/// Puts the lines of both paths, and the last lines.
fn put_moves<K: Sink>(
    sink: &mut K,
    one: &[LinedMove],
    two: &[LinedMove],
    count: u64,
    reason: &Reason,
) -> Result<(), PutFault>
    ensures { IsPut (K.state sink.old) (K.state sink.new)
        (path_text One one.now ++ (path_text Two two.now ++ end_text count reason.now)) result }
{
    match put_path(sink, Path::One, one) {
        Ok(()) => put_rest(sink, two, count, reason),
        Err(fault) => Err(fault),
    }
}

/// Puts the report of a history whose moves these are.
fn put_made<K: Sink>(
    sink: &mut K,
    made: &Both<Vec<LinedMove>>,
    count: u64,
    reason: &Reason,
) -> Result<(), PutFault>
    ensures { IsPut (K.state sink.old) (K.state sink.new)
        (path_text One made.now.one.items ++ (path_text Two made.now.two.items ++ end_text count reason.now)) result }
{
    put_moves(
        sink,
        made.one.as_slice(),
        made.two.as_slice(),
        count,
        reason,
    )
}

/// Puts the report of a history.
fn put_report<K: Sink>(
    alloc: Global,
    left: &Flow,
    right: &Flow,
    settings: &Settings,
    entries: &EntryList,
    reason: &Reason,
    sink: &mut K,
) -> Result<(), PutFault>
    requires legal { IsLegal (tapes_of left.now right.now)
        (machine_at_start left.now right.now settings.now) entries.now.items }
    requires few { length entries.now.items ≤ MOST_RECORDS }
    ensures { IsPut (K.state sink.old) (K.state sink.new) (report_text (tapes_of left.now right.now)
        (machine_at_start left.now right.now settings.now) entries.now.items reason.now) result }
{
    match history_done(alloc, left, right, settings, entries) {
        Ok(done) => put_made(sink, &done.made, entries.len() as u64, reason),
        Err(_) => Err(PutFault::NoMemory),
    }
}

/// Writes the report of a history of the pair: for each path its records' moves in order, each with
/// the line of the tape whose block made it; the number of records; and how the run ended. The
/// records are done again once, and the text is put line by line.
///
/// It asks for a legal history of at most 4,000,000 records. Errors: those of the sink, which then
/// holds a part of the text, from its start; and out of memory.
pub fn write_report<K: Sink>(
    alloc: Global,
    verified: &Verified,
    entries: &EntryList,
    reason: Reason,
    sink: &mut K,
) -> Result<(), PutFault>
    requires legal { IsLegal (tapes_of verified.now.left verified.now.right)
        (machine_at_start verified.now.left verified.now.right verified.now.settings) entries.now.items }
    requires few { length entries.now.items ≤ MOST_RECORDS }
    ensures { IsPut (K.state sink.old) (K.state sink.new) (report_text (tapes_of verified.now.left verified.now.right)
        (machine_at_start verified.now.left verified.now.right verified.now.settings) entries.now.items reason) result }
{
    put_report(
        alloc,
        verified.left(),
        verified.right(),
        verified.settings(),
        entries,
        &reason,
        sink,
    )
}
