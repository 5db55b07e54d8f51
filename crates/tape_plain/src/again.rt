//! What was written, read again: it is handed over only if it reads as what became of the tape, and
//! stays if it is written out once more.
ghost use Rattle.std.specs.Prelude.{◌≡◌, All};
ghost use Rattle.nc_number.specs.Answers.{Gives};
ghost use Rattle.plain_blocks.specs.Order.{HasNumber};
ghost use Rattle.plain_blocks.specs.Walk.{steps_of};
ghost use Rattle.tape_plain.specs.Again.{further, lines_from, origin, first_line, unread, not_again, unlike, is_kept, are_kept, all_kept, if_stays, checked};

use crate::fault::PlainTapeFault;
use crate::rules::rules_of;
use comma_words::read_tape;
use line_edits::Edit;
use nc_number::Failing;
use nc_text::{Program, TextFault};
use plain_blocks::{Rules, Step, StepList, written_tape};
use plain_form::{PlainCause, PlainFault};
use std::alloc::Global;
use written_blocks::is_read_as;

/// A line so many lines further on, as far as numbers of lines go.
fn further(line: u32, count: u32) -> u32
    ensures { result ≡ further line count }
{
    line.saturating_add(count)
}

/// How many lines these bytes have.
fn lines_in(bytes: &[u8]) -> u32
    ensures { result ≡ lines_from 0 bytes.now }
{
    let mut count = 0;
    for byte in bytes {
        if *byte == b'\n' {
            count = further(count, 1);
        }
    }
    count
}

/// The line of a tape for which a line stands of the text that was made of it by these edits.
fn origin(line: u32, edits: &[Edit]) -> u32
    ensures { result ≡ origin line edits.now }
{
    let mut at = line;
    for edit in edits {
        let count = lines_in(edit.new.as_slice());
        if at < edit.line {
            return at;
        }
        if at < further(edit.line, count) {
            return edit.line;
        }
        at = further(at.saturating_sub(count), 1);
    }
    at
}

/// The line of the first edit.
fn first_line(edits: &[Edit]) -> u32
    ensures { result ≡ first_line edits.now }
{
    match edits.first() {
        Some(edit) => edit.line,
        None => 1,
    }
}

/// A refusal of the text that was written, at the line of the tape for which its line stands.
fn unread(fault: TextFault, edits: &[Edit]) -> PlainTapeFault
    ensures { result ≡ unread fault edits.now }
{
    PlainTapeFault::Unreadable(TextFault {
        number: fault.number,
        line: origin(fault.line, edits),
    })
}

/// A refusal of the tape that was written, at the line of the tape for which its line stands.
fn not_again(fault: PlainFault, edits: &[Edit]) -> PlainTapeFault
    ensures { result ≡ not_again fault edits.now }
{
    PlainTapeFault::NotPlain(PlainFault {
        line: origin(fault.line, edits),
        cause: fault.cause,
    })
}

/// The refusal of a text that is not what it should be.
fn unlike(edits: &[Edit]) -> PlainTapeFault
    ensures { result ≡ unlike edits.now }
{
    PlainTapeFault::NotPlain(PlainFault {
        line: first_line(edits),
        cause: PlainCause::NoForm,
    })
}

/// Whether a block stays.
fn is_kept(step: &Step) -> bool
    ensures { result ≡ is_kept step.now }
{
    matches!(step, Step::Kept)
}

/// Whether all blocks of a program stay.
fn are_kept(steps: &[Step]) -> bool
    ensures { result ≡ are_kept steps.now }
{
    steps.iter().all(|step| is_kept(step))
}

/// Whether all blocks of a tape stay.
pub(crate) fn all_kept(all: &[StepList]) -> bool
    ensures { result ≡ all_kept all.now }
{
    all.iter().all(|steps| are_kept(steps.as_slice()))
}

/// The text that was written, if all blocks of its tape stay.
fn if_stays(
    alloc: Global,
    rules: &Rules,
    again: &[Program],
    edits: &[Edit],
    out: Vec<u8>,
) -> Result<Vec<u8>, Failing<PlainTapeFault>>
    requires { All HasNumber again.now }
    ensures { Gives (λ bytes. bytes.items) result (if_stays edits.now out.items (steps_of rules.now again.now)) }
{
    match written_tape(alloc, rules, again) {
        Ok(all) => {
            if all_kept(&all) {
                Ok(out)
            } else {
                Err(Failing::Fault(unlike(edits)))
            }
        }
        Err(Failing::Fault(fault)) => Err(Failing::Fault(not_again(fault, edits))),
        Err(Failing::NoMemory) => Err(Failing::NoMemory),
    }
}

/// The text that these edits made of a tape, if it reads as what became of the tape, and stays if it
/// is written out again; else its refusal, at the line of the tape.
pub(crate) fn checked(
    alloc: Global,
    rules: Rules,
    tape: &[Program],
    all: &[StepList],
    edits: &[Edit],
    out: Vec<u8>,
) -> Result<Vec<u8>, Failing<PlainTapeFault>>
    ensures { Gives (λ bytes. bytes.items) result
        (checked rules.dialect rules.settings tape.now all.now edits.now out.items) }
{
    let again = match read_tape(alloc, &out) {
        Ok(again) => again,
        Err(Failing::Fault(fault)) => return Err(Failing::Fault(unread(fault, edits))),
        Err(Failing::NoMemory) => return Err(Failing::NoMemory),
    };
    if !is_read_as(again.as_slice(), tape, all) {
        return Err(Failing::Fault(unlike(edits)));
    }
    let dialect = rules.dialect;
    let own = rules_of(alloc, &dialect, rules.settings, &out, again.as_slice())?;
    match if_stays(alloc, &own, again.as_slice(), edits, out) {
        Ok(bytes) => Ok(bytes),
        Err(fault) => Err(fault),
    }
}
