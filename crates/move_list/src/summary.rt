//! The summary of a history of a made pair: the answer to `make N` if both paths have ended. Its
//! text is defined in specs/Summary.antt.
ghost use Rattle.std.specs.Prelude.{◌≡◌, ◌+◌, ◌≤◌, ◌++◌, length, codes};
ghost use Rattle.text_pieces.specs.declared.piece.TheConstants.{MOST_BYTES};
ghost use Rattle.nc_number.specs.declared.limits.TheConstants.{MOST_RECORDS};
ghost use Rattle.nc_verify.specs.Printed.{IsPut};
ghost use Rattle.two_path.specs.Turns.{tapes_of};
ghost use Rattle.two_path.specs.Histories.{IsLegal};
ghost use Rattle.two_path.specs.Start.{machine_at_start};
ghost use Rattle.move_list.specs.Summary.{block_count, history_text, meetings_in, number_line, numbers_line, pair_text, place_text, places_text, summary_text};

use crate::end_line::records_line;
use crate::turns::{DoneAgain, history_done};
use cell_settings::Settings;
use nc_number::{Both, Path, Point};
use nc_outside::{LinedMove, PutFault, Sink};
use nc_verify::{Verified, put_piece};
use run_records::EntryList;
use std::alloc::Global;
use tape_flow::{Flow, FlowProgram};
use text_pieces::Piece;
use two_path::Machine;

/// How many blocks a tape has, in all its programs.
fn block_count(programs: &[FlowProgram]) -> u128
    ensures { result ≡ block_count programs.now }
{
    let mut count = 0u128;
    for program in programs {
        count += program.blocks.as_slice().len() as u128;
    }
    count
}

/// How often the paths met, by the records of meetings.
fn meeting_count(entries: &EntryList) -> usize
    ensures { result ≡ length (meetings_in entries.now.items) }
{
    let mut count = 0;
    for index in 0..entries.len() {
        if entries.get(index).kind.is_meeting() {
            count += 1;
        }
    }
    count
}

/// Adds a line of a name and one number.
#[tactic(auto, unfolding(crate::specs::Summary::number_line))]
fn add_number_line(piece: &mut Piece, name: &[u8], number: u64)
    requires { length piece.old + length name.now + 21 ≤ MOST_BYTES }
    ensures text { piece.new ≡ piece.old ++ number_line name.now number }
    ensures size { length piece.new ≤ length piece.old + length name.now + 21 }
{
    piece.add(name);
    piece.add_number(number);
    piece.add(b"\n");
}

/// Adds a line of a name and one number for each path.
#[tactic(auto, unfolding(crate::specs::Summary::numbers_line))]
fn add_numbers_line(piece: &mut Piece, name: &[u8], one: u128, two: u128)
    requires { length piece.old + length name.now + 82 ≤ MOST_BYTES }
    ensures text { piece.new ≡ piece.old ++ numbers_line name.now one two }
    ensures size { length piece.new ≤ length piece.old + length name.now + 82 }
{
    piece.add(name);
    piece.add_count(one);
    piece.add(b" ");
    piece.add_count(two);
    piece.add(b"\n");
}

/// The lines that say which made pair it is, and how many blocks its tapes have.
#[tactic(auto, unfolding(crate::specs::Summary::pair_text))]
fn pair_lines(number: u32, left: &Flow, right: &Flow) -> Piece
    ensures text { result ≡ pair_text number left.now.programs right.now.programs }
    ensures size { length result ≤ 115 }
{
    let mut piece = Piece::empty();
    add_number_line(&mut piece, b"make ", u64::from(number));
    add_numbers_line(
        &mut piece,
        b"blocks ",
        block_count(left.programs.as_slice()),
        block_count(right.programs.as_slice()),
    );
    piece
}

/// Adds how often the paths met, and how many records there are.
#[tactic(auto, unfolding(crate::specs::Summary::history_text))]
fn add_history(piece: &mut Piece, entries: &EntryList)
    requires { length piece.old + 59 ≤ MOST_BYTES }
    ensures text { piece.new ≡ piece.old ++ history_text entries.now.items }
    ensures size { length piece.new ≤ length piece.old + 59 }
{
    add_number_line(piece, b"meetings ", meeting_count(entries) as u64);
    piece.add(records_line(entries.len() as u64).as_slice());
}

/// Adds how many moves each path's records made.
fn add_moves(piece: &mut Piece, made: &Both<Vec<LinedMove>>)
    requires { length piece.old + 88 ≤ MOST_BYTES }
    ensures text { piece.new ≡ piece.old
        ++ numbers_line (codes "moves ") (length made.now.one.items) (length made.now.two.items) }
    ensures size { length piece.new ≤ length piece.old + 88 }
{
    add_numbers_line(
        piece,
        b"moves ",
        made.one.len() as u128,
        made.two.len() as u128,
    );
}

/// Adds where a path's turret stands, in machine coordinates.
#[tactic(auto, unfolding(crate::specs::Summary::place_text))]
fn add_place(piece: &mut Piece, path: Path, at: Point)
    requires { length piece.old + 77 ≤ MOST_BYTES }
    ensures text { piece.new ≡ piece.old ++ place_text path at }
    ensures size { length piece.new ≤ length piece.old + 77 }
{
    piece.add(b"end ");
    piece.add_number(u64::from(path.number()));
    piece.add_point(at);
    piece.add(b"\n");
}

/// Adds where both turrets stand.
#[tactic(auto, unfolding(crate::specs::Summary::places_text))]
fn add_places(piece: &mut Piece, machine: &Machine)
    requires { length piece.old + 154 ≤ MOST_BYTES }
    ensures { piece.new ≡ piece.old ++ places_text machine.now.machine }
{
    add_place(piece, Path::One, machine.path(Path::One).position());
    add_place(piece, Path::Two, machine.path(Path::Two).position());
}

/// The summary of a history that was done again.
fn summary_lines(
    number: u32,
    left: &Flow,
    right: &Flow,
    entries: &EntryList,
    done: &DoneAgain,
) -> Piece
    ensures { result ≡ pair_text number left.now.programs right.now.programs ++ (history_text entries.now.items
        ++ (numbers_line (codes "moves ") (length done.now.made.one.items) (length done.now.made.two.items)
        ++ places_text done.now.machine.machine)) }
{
    let mut piece = pair_lines(number, left, right);
    add_history(&mut piece, entries);
    add_moves(&mut piece, &done.made);
    add_places(&mut piece, &done.machine);
    piece
}

/// Puts the summary of a history.
fn put_summary<K: Sink>(
    alloc: Global,
    number: u32,
    left: &Flow,
    right: &Flow,
    settings: &Settings,
    entries: &EntryList,
    sink: &mut K,
) -> Result<(), PutFault>
    requires legal { IsLegal (tapes_of left.now right.now)
        (machine_at_start left.now right.now settings.now) entries.now.items }
    requires few { length entries.now.items ≤ MOST_RECORDS }
    ensures { IsPut (K.state sink.old) (K.state sink.new)
        (summary_text number left.now right.now settings.now entries.now.items) result }
{
    match history_done(alloc, left, right, settings, entries) {
        Ok(done) => put_piece(sink, &summary_lines(number, left, right, entries, &done)),
        Err(_) => Err(PutFault::NoMemory),
    }
}

/// Writes the summary of a history of the made pair of this number: how many blocks each tape has,
/// in all its programs; at how many records the paths met; how many records there are; how many
/// moves each path's records made; and where both turrets stand after the last record, in machine
/// coordinates. The records are done again once.
///
/// It asks for a legal history of at most 4,000,000 records. Errors: those of the sink, which then
/// holds a part of the text, from its start; and out of memory.
pub fn write_summary<K: Sink>(
    alloc: Global,
    number: u32,
    verified: &Verified,
    entries: &EntryList,
    sink: &mut K,
) -> Result<(), PutFault>
    requires legal { IsLegal (tapes_of verified.now.left verified.now.right)
        (machine_at_start verified.now.left verified.now.right verified.now.settings) entries.now.items }
    requires few { length entries.now.items ≤ MOST_RECORDS }
    ensures { IsPut (K.state sink.old) (K.state sink.new)
        (summary_text number verified.now.left verified.now.right verified.now.settings entries.now.items) result }
{
    put_summary(
        alloc,
        number,
        verified.left(),
        verified.right(),
        verified.settings(),
        entries,
        sink,
    )
}
