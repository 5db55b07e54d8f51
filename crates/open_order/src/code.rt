//! What a block takes on trust: G codes that this control does not run, M codes that only the
//! machine knows, and calls of programs that the tape lacks, as it may (outside.rt). trusting.rt
//! gathers them over the blocks of a tape.
ghost use Rattle.std.specs.Prelude.{◌≡◌};
ghost use Rattle.block_words.specs.Codes.{row_of_number};
ghost use Rattle.open_forms.specs.Words.{whole_of_word};
ghost use Rattle.open_forms.specs.Controls.{control_or_number, open_control};
ghost use Rattle.open_order.specs.Basis.{basis};
ghost use Rattle.open_order.specs.Reading.{gone_from};
ghost use Rattle.open_order.specs.Trusted.{is_own_row, is_standard_m, geometry_code, auxiliary_code, word_code, gone_call, called_outside};

use crate::outside::is_gone;
use crate::reading::Reading;
use block_forms::{Dialect, row_of};
use block_order::Control;
use code_tables::{Row, System};
use nc_text::{Block, Word};
use open_forms::{number, open_control, written};

/// A code or call that is taken on trust to go on to the next block.
#[derive(Clone, Copy, Debug, PartialEq, Eq)]
pub(crate) enum Code {
    /// A G code, by its millionths.
    Geometry(u64),
    /// An M code.
    Auxiliary(u32),
    /// A call of a program that the tape lacks.
    Subprogram(u16),
}

/// Whether the row of a code is there and is one that this control runs. A code that it refuses is
/// known by the machine alone, so it is taken on trust.
fn is_own_row(row: Option<Row>) -> bool
    ensures { result ≡ is_own_row row }
{
    match row {
        Some(row) => !row.kind.is_refused(),
        None => false,
    }
}

/// Whether this control runs the code of a G word in that system.
fn is_own(system: System, word: &Word) -> bool
    ensures { result ≡ is_own_row (row_of_number system (whole_of_word word.now)) }
{
    match number(word) {
        Some(code) => is_own_row(row_of(system, code)),
        None => false,
    }
}

/// The G code of so many millionths, so 70500000 is G70.5; none without a number or below 0.
fn geometry_code(micro: Option<i64>) -> Option<Code>
    ensures { result ≡ geometry_code micro }
{
    match micro {
        Some(micro) if micro >= 0 => Some(Code::Geometry(micro as u64)),
        _ => None,
    }
}

/// Whether an M code is a standard one, which means the same on every machine: stops, ends, the
/// spindle, coolant, and calls.
fn is_standard_m(code: u32) -> bool
    ensures { result ≡ is_standard_m code }
{
    (code <= 5 || (code == 8 || code == 9)) || (code == 30 || (code == 98 || code == 99))
}

/// The M code as one that is taken on trust, unless it is a wait or a standard one.
fn auxiliary_code(dialect: &Dialect, code: Option<u32>) -> Option<Code>
    ensures { result ≡ auxiliary_code dialect.now code }
{
    match code {
        Some(code) => {
            if dialect.is_waiting(code) || is_standard_m(code) {
                None
            } else {
                Some(Code::Auxiliary(code))
            }
        }
        None => None,
    }
}

/// What a word takes on trust, if anything: a G code that this control does not run in the system
/// of the tape, or an M code that is no wait and no standard one.
pub(crate) fn word_code(dialect: &Dialect, word: &Word) -> Option<Code>
    ensures { result ≡ word_code dialect.now word.now }
{
    if word.letter == b'G' {
        if is_own(dialect.system, word) {
            None
        } else {
            geometry_code(written(word))
        }
    } else if word.letter == b'M' {
        auxiliary_code(dialect, number(word))
    } else {
        None
    }
}

/// The program of a call, if the tape lacks it, as it may.
fn gone_call(reading: &Reading<'_>, control: Control) -> Option<Code>
    ensures { result ≡ gone_call (gone_from (basis reading.now)) control }
{
    match control {
        Control::Call {
            program,
            repeats: _,
        } => {
            if is_gone(reading.premises.outside, reading.tape, program) {
                Some(Code::Subprogram(program))
            } else {
                None
            }
        }
        _ => None,
    }
}

/// The program that a block calls, if the block is not refused and the tape lacks the program, as
/// it may.
pub(crate) fn called_outside(reading: &Reading<'_>, block: &Block) -> Option<Code>
    ensures { result ≡ called_outside (gone_from (basis reading.now))
        (control_or_number (open_control reading.now.premises.dialect block.now.body)) }
{
    match open_control(block, &reading.premises.dialect) {
        Ok(control) => gone_call(reading, control),
        Err(_) => None,
    }
}
