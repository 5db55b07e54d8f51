//! A tape with its roughing cycles written out as plain blocks, or its refusal. How they are written
//! out is in tape_expand.
ghost use Rattle.std.specs.Prelude.{◌≡◌};
ghost use Rattle.lathe_calls.specs.Answers.{Ends, IsJust, tells};
ghost use Rattle.tape_calls.specs.Expanded.{IsExpanded, IsTapeRefusing, refusal_text};
ghost use Rattle.lathe_calls.specs.Statuses as exit;

use lathe_calls::{Status, write_text};
use nc_number::{Cause, Failing};
use nc_outside::Sink;
use std::alloc::Global;
use tape_expand::{ExpandFault, expand_tape};
use text_pieces::Piece;

/// Writes this text with its roughing cycles as plain blocks, or its refusal, and gives the exit
/// status.
pub(crate) fn expand_text<K: Sink>(alloc: Global, text: &[u8], out: &mut K) -> u8
    ensures { Ends (IsExpanded text.now) (K.state out.old) (K.state out.new) result }
{
    match expand_tape(alloc, text) {
        Ok(bytes) => write_text(out, &bytes, Status::Done as u8),
        Err(Failing::Fault(fault)) => refuse_tape(fault, out),
        Err(Failing::NoMemory) => Status::NoMemory as u8,
    }
}

/// Writes why the tape is refused, and gives the exit status.
fn refuse_tape<K: Sink>(fault: ExpandFault, out: &mut K) -> u8
    ensures { Ends (IsTapeRefusing fault) (K.state out.old) (K.state out.new) result }
{
    tell_refusal(Cause::of_number(fault.number()), fault, out)
}

/// Writes the line of a refusal with its cause, and gives the exit status.
fn tell_refusal<K: Sink>(cause: Option<Cause>, fault: ExpandFault, out: &mut K) -> u8
    ensures { Ends (IsJust (tells exit.refused (refusal_text cause fault))) (K.state out.old) (K.state out.new) result }
{
    write_text(
        out,
        refusal_line(cause, fault).as_slice(),
        Status::Refused as u8,
    )
}

/// The line of a refusal with its cause. It takes no memory.
#[tactic(auto, unfolding(crate::specs::Expanded::refusal_text))]
fn refusal_line(cause: Option<Cause>, fault: ExpandFault) -> Piece
    ensures { result ≡ refusal_text cause fault }
{
    let mut piece = Piece::empty();
    piece.add_numbered(b"refused ", u64::from(fault.number()));
    piece.add_name(cause);
    piece.add_numbered(b" line ", u64::from(fault.line()));
    piece.add(b"\n");
    piece
}
