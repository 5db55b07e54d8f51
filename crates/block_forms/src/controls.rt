//! What the words or the statement of a block do to the order of blocks. For this crate alone:
//! reading.rt gives each block its control; the definition is specs/Controls.antt.
ghost use Rattle.std.specs.Prelude.{◌≡◌, ◌≤◌, IfSome};
ghost use Rattle.nc_number.specs.declared.limits.TheConstants.{LARGEST_WHOLE};
ghost use Rattle.macro_expr.specs.Tree.{aim_of, sentence_of};
ghost use Rattle.block_forms.specs.Controls.{number_of, or_number, call_of_p, back_to, wait_at, end_or_next, number_of_aim, control_of_sentence};

use crate::words::FlowWords;
use block_order::Control;
use block_words::{FlowWord, Purpose, first_waiting, has_code, number_of};
use macro_expr::{Statement, Target};

/// The number that the last word of these letters says, or the other number if it says none.
fn number_or(words: &[FlowWord], letters: &[u8], other: u16) -> u16
    requires { IfSome (number_of letters.now words.now) (λ n. n ≤ 9999) }
    ensures { result ≡ or_number other (number_of letters.now words.now) }
{
    match number_of(words, letters) {
        Some(n) => n as u16,
        None => other,
    }
}

/// The call that a P says: of more than four digits it has the repeats before the program's four
/// digits, else they stand apart.
fn call_of_p(p: u32, repeats: u16) -> Control
    requires { p ≤ LARGEST_WHOLE }
    ensures { result ≡ call_of_p p repeats }
{
    if 10_000 <= p {
        Control::Call {
            program: (p % 10_000) as u16,
            repeats: (p / 10_000) as u16,
        }
    } else {
        Control::Call {
            program: p as u16,
            repeats,
        }
    }
}

/// M99: back to a sequence number, or without one to the call.
fn back_to(sequence: Option<u32>) -> Control
    ensures { result ≡ back_to sequence }
{
    match sequence {
        Some(n) => Control::BackTo(n),
        None => Control::Back,
    }
}

/// A wait of this code. Words that wait have a waiting code, so there is no case without one.
fn wait_at(code: Option<u16>) -> Control
    ensures { result ≡ wait_at code }
{
    match code {
        Some(code) => Control::Wait(code),
        None => Control::Next,
    }
}

/// The end of the path, if a word is M02 or M30; else the next block.
fn end_or_next(words: &[FlowWord]) -> Control
    ensures { result ≡ end_or_next words.now }
{
    if has_code(words, 2) || has_code(words, 30) {
        Control::End
    } else {
        Control::Next
    }
}

/// The sequence number that is written out, if one is.
fn number_of_target(target: &Target) -> Option<u32>
    ensures { result ≡ number_of_aim (aim_of target.now) }
{
    match target {
        Target::Fixed(n) => Some(*n),
        Target::Computed(_) => None,
    }
}

/// What a statement does to the order of blocks.
pub(crate) fn control_of_statement(statement: &Statement) -> Control
    ensures { result ≡ control_of_sentence (sentence_of statement.now) }
{
    match statement {
        Statement::Assign(_, _) | Statement::IfThen(_, _, _) => Control::Next,
        Statement::Goto(target) | Statement::IfGoto(_, target) => Control::Goto(number_of_target(
            target,
        )),
        Statement::WhileDo(_, name) => Control::While(*name),
        Statement::DoOnly(name) => Control::Do(*name),
        Statement::EndLoop(name) => Control::EndLoop(*name),
    }
}

impl FlowWords {
    ghost use Rattle.std.specs.Prelude.{None};
    ghost use Rattle.block_forms.specs.Refusals.{refusal_of};
    ghost use Rattle.block_forms.specs.Controls.{control_of_words};

    /// What the block does to the order of blocks, if it is not refused.
    pub(crate) fn control(&self) -> Control
        requires { refusal_of self.now.dialect self.now.words ≡ None }
        ensures { result ≡ control_of_words self.now.dialect self.now.words }
    {
        let words = self.words.as_slice();
        match self.purpose {
            Purpose::MacroCall => Control::Call {
                program: number_or(words, b"P", 0),
                repeats: number_or(words, b"L", 1),
            },
            Purpose::Subprogram => match number_of(words, b"P") {
                Some(p) => call_of_p(p, number_or(words, b"L", 1)),
                None => call_of_p(0, number_or(words, b"L", 1)),
            },
            Purpose::Return => back_to(number_of(words, b"P")),
            Purpose::Wait => wait_at(first_waiting(words, self.dialect)),
            Purpose::Dwell | Purpose::Setting | Purpose::Other => end_or_next(words),
        }
    }
}
