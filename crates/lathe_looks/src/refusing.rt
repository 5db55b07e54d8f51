//! What is written if a command can't begin: its words are no command, or there is no run to go on
//! with or to show. showing.rt and zoning.rt use it.
ghost use Rattle.std.specs.Prelude.{◌≡◌, codes};
ghost use Rattle.lathe_calls.specs.Answers.{Ends, IsJust, tells};
ghost use Rattle.lathe_looks.specs.Shown.{bad_text, unfound_answer};
ghost use Rattle.lathe_calls.specs.Statuses as exit;

use lathe_calls::{Status, write_text};
use nc_outside::Sink;
use nc_restart::RestartFault;
use text_pieces::Piece;

/// Writes that the words are no command, and gives the exit status.
pub fn tell_usage<K: Sink>(out: &mut K) -> u8
    ensures { Ends (IsJust (tells exit.usage (codes "usage\n"))) (K.state out.old) (K.state out.new) result }
{
    write_text(out, b"usage\n", Status::Usage as u8)
}

/// Writes why no run was found, and gives the exit status; if memory ran out, nothing is written.
pub fn tell_unfound<K: Sink>(fault: RestartFault, out: &mut K) -> u8
    ensures { Ends (IsJust (unfound_answer fault)) (K.state out.old) (K.state out.new) result }
{
    match fault {
        RestartFault::DiskFault => write_text(out, b"disk fault\n", Status::DiskFault as u8),
        RestartFault::NoRun => write_text(out, b"no run\n", Status::RunOrNone as u8),
        RestartFault::Cut(offset) => tell_bad(offset, out),
        RestartFault::BadRecord { offset, cause: _ } => tell_bad(offset, out),
        RestartFault::NoMemory => Status::NoMemory as u8,
    }
}

/// Writes the byte at which a journal is damaged, and gives the exit status.
fn tell_bad<K: Sink>(offset: u64, out: &mut K) -> u8
    ensures { Ends (IsJust (tells exit.bad_journal (bad_text offset))) (K.state out.old) (K.state out.new) result }
{
    write_text(out, bad_line(offset).as_slice(), Status::BadJournal as u8)
}

/// The line of output for a journal that is damaged at this byte. It takes no memory.
#[tactic(auto, unfolding(crate::specs::Shown::bad_text))]
fn bad_line(offset: u64) -> Piece
    ensures { result ≡ bad_text offset }
{
    let mut piece = Piece::empty();
    piece.add(b"bad journal");
    piece.add(b" at ");
    piece.add_number(offset);
    piece.add(b"\n");
    piece
}
