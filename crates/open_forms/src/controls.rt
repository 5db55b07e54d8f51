//! What a block of words does to the order of blocks. A statement's control is in statement.rt. For
//! this crate alone: reading.rt calls `control_of_words`; the definition is specs/Controls.antt.
ghost use Rattle.std.specs.Prelude.{◌≡◌, ◌≤◌, IfSome, None};
ghost use Rattle.nc_number.specs.declared.limits.TheConstants.{LARGEST_WHOLE};
ghost use Rattle.block_forms.specs.Controls.{or_number, call_of_p, back_to, wait_at};
ghost use Rattle.open_forms.specs.Words.{last_number};
ghost use Rattle.open_forms.specs.Codes.{role_of};
ghost use Rattle.open_forms.specs.Refusals.{refusal_of};
ghost use Rattle.open_forms.specs.Controls.{control_by, control_of_words};

use crate::codes::{first_waiting, role_of};
use crate::letters::last_number;
use crate::refusals::refusal_of;
use crate::role::Role;
use block_forms::Dialect;
use block_order::Control;
use nc_number::Cause;
use nc_text::Word;

/// The number that the last word of these letters says, or the other number if it says none.
fn number_or(words: &[Word], letters: &[u8], other: u16) -> u16
    requires { IfSome (last_number letters.now words.now) (λ n. n ≤ 9999) }
    ensures { result ≡ or_number other (last_number letters.now words.now) }
{
    match last_number(words, letters) {
        Some(n) => n as u16,
        None => other,
    }
}

/// The call that a P says: of more than four digits it has the repeats before the program's four
/// digits, else they stand apart.
fn call_of_p(p: u32, repeats: u16) -> Control
    requires { p ≤ LARGEST_WHOLE }
    ensures { result ≡ call_of_p p repeats }
{
    if 10_000 <= p {
        Control::Call {
            program: (p % 10_000) as u16,
            repeats: (p / 10_000) as u16,
        }
    } else {
        Control::Call {
            program: p as u16,
            repeats,
        }
    }
}

/// M99: back to a sequence number, or without one to the call.
fn back_to(sequence: Option<u32>) -> Control
    ensures { result ≡ back_to sequence }
{
    match sequence {
        Some(n) => Control::BackTo(n),
        None => Control::Back,
    }
}

/// A wait of this code. Words that wait have a waiting code, so there is no case without one.
fn wait_at(code: Option<u16>) -> Control
    ensures { result ≡ wait_at code }
{
    match code {
        Some(code) => Control::Wait(code),
        None => Control::Next,
    }
}

/// What a block of this role does to the order of blocks, if it is not refused.
fn control_by(role: Role, dialect: Dialect, words: &[Word]) -> Control
    requires role { role ≡ role_of dialect words.now }
    requires accepted { refusal_of dialect words.now ≡ None }
    ensures { result ≡ control_by role dialect words.now }
{
    match role {
        Role::MacroCall => Control::Call {
            program: number_or(words, b"P", 0),
            repeats: number_or(words, b"L", 1),
        },
        Role::Subprogram => match last_number(words, b"P") {
            Some(p) => call_of_p(p, number_or(words, b"L", 1)),
            None => call_of_p(0, number_or(words, b"L", 1)),
        },
        Role::Return => back_to(last_number(words, b"P")),
        Role::Wait => wait_at(first_waiting(words, dialect)),
        Role::End => Control::End,
        Role::Roughing => Control::Goto(last_number(words, b"Q")),
        Role::Finishing | Role::Other => Control::Next,
    }
}

/// What a block of words does to the order of blocks, or the least refusal that holds of it.
pub(crate) fn control_of_words(dialect: Dialect, words: &[Word]) -> Result<Control, Cause>
    ensures { result ≡ control_of_words dialect words.now }
{
    let role = role_of(dialect, words);
    match refusal_of(role, dialect, words) {
        Some(cause) => Err(cause),
        None => Ok(control_by(role, dialect, words)),
    }
}
