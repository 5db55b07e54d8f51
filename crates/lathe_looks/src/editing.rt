//! The edits that an operator makes, read from a file of `edit`; a bad line is refused as 91. What
//! edits do to a run is in run_edits.
ghost use Rattle.std.specs.Prelude.{◌≡◌, ◌<◌, ◌^◌, Ok, length, IfOk, IfErr};
ghost use Rattle.edit_texts.specs.Edits.{edits_of};
ghost use Rattle.lathe_calls.specs.Answers.{Ends, IsJust, tells};
ghost use Rattle.lathe_calls.specs.Statuses as exit;
ghost use Rattle.lathe_looks.specs.Edited.{AreEditsOf, IsUnedited, bad_edit_text};
ghost use Rattle.lathe_looks.specs.Fetched.{IsOfFiles};
ghost use Rattle.lathe_looks.specs.Named.{only_text, edits_named};

use crate::fetching::{fetch_edits, tell_unfetched};
use edit_texts::{EditFault, EditList, read_edits};
use lathe_calls::{Status, write_text};
use nc_number::{Cause, Failing};
use nc_outside::{Shelf, Sink};
use std::alloc::Global;
use text_pieces::refused_at;

/// The edits of a file. If the file can't be read or has a bad line, that is written, and the error
/// is the exit status; if memory ran out, nothing is written.
pub fn edits_of_file<H: Shelf, K: Sink>(
    alloc: Global,
    name: &str,
    shelf: &mut H,
    out: &mut K,
) -> Result<EditList, u8>
    ensures read { IfOk result (λ edits. AreEditsOf (H.state shelf.old) (H.state shelf.new) name.now edits) }
    ensures silent { IfOk result (λ edits. K.state out.new ≡ K.state out.old) }
    ensures told { IfErr result (λ status. Ends (IsOfFiles only_text (edits_named name.now) (Unit {0}) IsUnedited
        (H.state shelf.old) (H.state shelf.new)) (K.state out.old) (K.state out.new) status) }
{
    match fetch_edits(alloc, shelf, name) {
        Ok(text) => edits_of_text(alloc, &text, out),
        Err(error) => Err(tell_unfetched(alloc, &error, out)),
    }
}

/// The edits of a text. If a line is bad, the first such line is written, and the error is the exit
/// status; if memory ran out, nothing is written.
fn edits_of_text<K: Sink>(alloc: Global, text: &[u8], out: &mut K) -> Result<EditList, u8>
    requires { length text.now < 2 ^ 32 }
    ensures read { IfOk result (λ edits. edits_of text.now ≡ Ok edits) }
    ensures silent { IfOk result (λ edits. K.state out.new ≡ K.state out.old) }
    ensures told { IfErr result (λ status. Ends (IsUnedited text.now) (K.state out.old) (K.state out.new) status) }
{
    match read_edits(alloc, text) {
        Ok(edits) => Ok(edits),
        Err(Failing::Fault(fault)) => Err(tell_bad_edit(fault, out)),
        Err(Failing::NoMemory) => Err(Status::NoMemory as u8),
    }
}

/// Writes the line of the refusal for this fault, and gives the exit status.
fn tell_bad_edit<K: Sink>(fault: EditFault, out: &mut K) -> u8
    ensures { Ends (IsJust (tells exit.refused (bad_edit_text fault.line))) (K.state out.old) (K.state out.new) result }
{
    write_text(
        out,
        refused_at(Cause::BadEdit, fault.line).as_slice(),
        Status::Refused as u8,
    )
}
