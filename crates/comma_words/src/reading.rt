//! A text with words after commas, read.
ghost use Rattle.std.specs.Prelude.{◌≡◌, All, IfOk};
ghost use Rattle.nc_number.specs.Answers.{Gives};
ghost use Rattle.nc_text.specs.Tape.{tape_of};
ghost use Rattle.comma_words.specs.Places.{front, comma_places};
ghost use Rattle.comma_words.specs.Small.{small_tape};
ghost use Rattle.comma_words.specs.Reading.{HasNumber, comma_tape};

use crate::places::{comma_places, without_commas};
use crate::small::small_tape;
use nc_number::{Failing, NoMemory};
use nc_text::{Program, Reader, Tape, TextFault};
use std::alloc::Global;

/// The tape of the text. No switch is set, so no block is skipped. Errors: the refusal of the text; out
/// of memory.
pub fn read_tape(alloc: Global, text: &[u8]) -> Result<Tape, Failing<TextFault>>
    ensures { Gives (λ tape. tape) result (tape_of 0 text.now) }
{
    let mut reader = Reader::new(alloc, 0)?;
    match reader.feed(text) {
        Ok(()) => reader.finish(),
        Err(fault) => Err(fault),
    }
}

/// The programs of a tape that was read from this text without its commas.
#[tactic(auto, using(crate::proofs::Numbered::numbered))]
fn with_commas(alloc: Global, text: &[u8], tape: &Tape) -> Result<Vec<Program>, NoMemory>
    ensures tape { IfOk result (λ programs. programs.items ≡ small_tape (comma_places front text.now) tape.now) }
    ensures numbers { IfOk result (λ programs. All HasNumber programs.items) }
{
    let places = comma_places(alloc, text)?;
    let programs = small_tape(alloc, &places, tape.as_slice())?;
    Ok(programs)
}

/// The programs of a text in which words may stand after commas: `,C`, `,R` and `,A` have the small
/// letters c, r and a. No block is skipped.
///
/// Errors: the refusal of the text with a blank in place of each such comma; out of memory.
pub fn comma_tape(alloc: Global, text: &[u8]) -> Result<Vec<Program>, Failing<TextFault>>
    ensures exact { Gives (λ programs. programs.items) result (comma_tape text.now) }
    ensures numbers { IfOk result (λ programs. All HasNumber programs.items) }
{
    let plain = without_commas(alloc, text)?;
    match read_tape(alloc, &plain) {
        Ok(tape) => {
            let programs = with_commas(alloc, text, &tape)?;
            Ok(programs)
        }
        Err(fault) => Err(fault),
    }
}
