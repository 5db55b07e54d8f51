//! That the three words for the moves of a path say one thing. Each law is the contract of a function
//! that does nothing: who calls it has the law. They are for readers: no other crate calls them.
ghost use Rattle.std.specs.Prelude.{◌≡◌, ℕ, List, take, drop};
ghost use Rattle.nc_number.specs.declared.path.Path.{Path};
ghost use Rattle.nc_verify.specs.declared.verified.Verified.{Verified};
ghost use Rattle.path_state.specs.View.{PathView};
ghost use Rattle.run_records.specs.Entries.{Entry};
ghost use Rattle.two_path.specs.Machine.{opening};
ghost use Rattle.two_path.specs.Turns.{Tapes};
ghost use Rattle.two_path.specs.Histories.{Event, run, history, fold, turns_of};
ghost use Rattle.two_path.specs.Made.{moves_of};
ghost use Rattle.run_table.specs.Kept.{tapes_in, opening_of};
ghost use Rattle.run_table.specs.Made.{moves_made};
ghost use Rattle.race_order.specs.Agreement.{moves_by};
ghost use Rattle.path_moves.specs.OneWord.{moves_with_lines, IsOneWord};

use two_path::histories_are_runs;

/// The moves that a path's records make between two numbers of a history are the moves of these
/// records, from the machine behind those before them.
pub fn the_moves_of_records_are_one()
    ensures { (pair : Verified) (path : Path) (from upto : ℕ) (history : List Entry)
        → moves_made pair path from upto history
        ≡ moves_of (tapes_in pair) (fold (tapes_in pair) (opening_of pair) (take from history)) path
        (drop from (take upto history)) }
{}

/// Behind any turns and edits, the moves that a path makes in more turns, block by block, are the
/// moves of the records that these turns make.
pub fn the_moves_of_turns_are_those_of_their_records()
    ensures { (tapes : Tapes) (first second : PathView) (before : List Event) (turns : List Path) (path : Path)
        → moves_with_lines (moves_by tapes path (run tapes (opening first second) before) turns)
        ≡ moves_of tapes (fold tapes (opening first second) (history tapes (opening first second) before)) path
        (history tapes (run tapes (opening first second) before) (turns_of turns)) }
{
    histories_are_runs();
}

/// So of a pair all three are one: the moves of turns, those of the records that these turns make,
/// and those that the whole history has between the first of these records and the last.
pub fn the_moves_of_a_path_are_one()
    ensures { (pair : Verified) → IsOneWord pair }
{
    the_moves_of_records_are_one();
    the_moves_of_turns_are_those_of_their_records();
}
