//! From a text to the edits, or to its first bad line. What a line says is in named.rt.
ghost use Rattle.std.specs.Prelude.{◌≡◌, ◌<◌, ◌^◌, length, Some, None, if◌then◌else◌, IfOk};
ghost use Rattle.nc_number.specs.Answers.{GivesBy};
ghost use Rattle.nc_number.specs.Causes.{cause_number};
ghost use Rattle.nc_number.specs.declared.cause.Cause.TheVariants as Cause;
ghost use Rattle.edit_texts.specs.Edits.{edits_of, with_said};
ghost use Rattle.edit_texts.specs.Faults.{fault_line};
ghost use Rattle.edit_texts.specs.Lines.{line_says};

use crate::edit_list::EditList;
use crate::named::read_line;
use field_lines::cut_line;
use nc_number::{Cause, Failing, NoMemory};
use std::alloc::Global;
use thiserror::Error;

/// The line of a text of edits that is not allowed, counted from 1.
#[derive(Clone, Copy, Debug, PartialEq, Eq, Error)]
#[error("line {line} of the edits is not allowed")]
pub struct EditFault {
    /// The first line that is not allowed, from 1.
    pub line: u32,
}

impl EditFault {
    /// The number of the refusal, that of [`BadEdit`](Cause::BadEdit).
    pub fn number(self) -> u8
        ensures { result ≡ cause_number Cause.BadEdit }
    {
        Cause::BadEdit.number()
    }
}

/// Reads a text of edits, or refuses it with its first line that is not allowed, counted from 1.
///
/// A line is empty, a comment that begins with `(`, or one of `work p n X.. Z..`, `tool p n X..
/// Z..`, `wear p n X.. Z..` as in the settings, `var p v` with a number, and `var p v vacant`,
/// where v is 100 to 199 or 500 to 999. The 65th edit is not allowed.
pub fn read_edits(alloc: Global, text: &[u8]) -> Result<EditList, Failing<EditFault>>
    requires { length text.now < 2 ^ 32 }
    // The edits that the text gives, or the first line that is not allowed, unless memory runs out.
    ensures exact { GivesBy (λ edits. edits) fault_line result (edits_of text.now) }
{
    let mut edits = EditList::empty(alloc);
    let mut rest = text;
    let mut line = 0u32;
    while !rest.is_empty() {
        let (front, after) = cut_line(rest);
        line += 1;
        if !take_line(alloc, &mut edits, front)? {
            return Err(Failing::Fault(EditFault { line }));
        }
        rest = after;
    }
    Ok(edits)
}

/// Takes what a line says after the edits before it, and tells whether it is allowed there. The
/// error is that memory ran out.
fn take_line(alloc: Global, edits: &mut EditList, line: &[u8]) -> Result<bool, NoMemory>
    ensures { IfOk result (λ taken.
        with_said edits.old (line_says line.now) ≡ (if taken then Some edits.new else None)) }
{
    match read_line(alloc, line) {
        Ok(said) => edits.take(said),
        Err(_) => Err(NoMemory),
    }
}
