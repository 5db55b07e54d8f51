//! The programs that the tapes of a pair may lack, as `waits --outside` names them; and whether a
//! tape lacks one.
ghost use Rattle.std.specs.Prelude.{◌≡◌};
ghost use Rattle.open_order.specs.Gone.{is_in, is_on, is_gone};

use nc_text::Program;

/// The programs that a tape may lack: those whose O numbers lie in a range, both ends included.
///
/// The control has them, none of them waits or ends, and each comes back to its caller. A program
/// that the tape has is read, whatever the range.
#[derive(Clone, Copy, Debug, PartialEq, Eq)]
pub struct Outside {
    /// The least O number.
    pub least: u16,
    /// The greatest O number.
    pub greatest: u16,
}

/// Whether an O number is in the range of the programs that a tape may lack, if there is one.
fn is_in(outside: Option<Outside>, number: u16) -> bool
    ensures { result ≡ is_in outside number }
{
    match outside {
        Some(outside) => outside.least <= number && number <= outside.greatest,
        None => false,
    }
}

/// Whether the tape has the program.
fn is_on(tape: &[Program], number: u16) -> bool
    ensures { result ≡ is_on tape.now number }
{
    tape.iter()
        .any(|program| program.number == u32::from(number))
}

/// Whether the tape lacks the program of this O number, as it may.
pub(crate) fn is_gone(outside: Option<Outside>, tape: &[Program], number: u16) -> bool
    ensures { result ≡ is_gone outside tape.now number }
{
    is_in(outside, number) && !is_on(tape, number)
}
