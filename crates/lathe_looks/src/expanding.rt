//! The command `expand`: a tape with its roughing cycles written out as plain blocks. What is due to
//! the text of a tape is in tape_calls.
ghost use Rattle.lathe_calls.specs.Answers.{Ends};
ghost use Rattle.lathe_looks.specs.Fetched.{IsOfFiles};
ghost use Rattle.lathe_looks.specs.Named.{only_text, tape_named};
ghost use Rattle.tape_calls.specs.Expanded.{IsExpanded};

use crate::fetching::{fetch_tape, tell_unfetched};
use nc_outside::{Shelf, Sink};
use std::alloc::Global;
use tape_calls::{TapeQuestion, TapeTexts, tell_tape};

/// Writes the tape with its roughing cycles as plain blocks, and gives the exit status: 0; 1 if the
/// tape is refused; that of a file that can't be read; 5 if the sink failed; or 12 if memory ran
/// out.
pub fn expand<H: Shelf, K: Sink>(alloc: Global, name: &str, shelf: &mut H, out: &mut K) -> u8
    ensures { Ends (IsOfFiles only_text (tape_named name.now) (Unit {0}) IsExpanded
        (H.state shelf.old) (H.state shelf.new))
        (K.state out.old) (K.state out.new) result }
{
    match fetch_tape(alloc, shelf, name) {
        Ok(text) => tell_tape(alloc, &TapeTexts::of(&text, b""), TapeQuestion::Expand, out),
        Err(error) => tell_unfetched(alloc, &error, out),
    }
}
