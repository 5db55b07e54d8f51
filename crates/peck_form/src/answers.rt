//! What a cause of a groove or a hole is for its words.
ghost use Rattle.std.specs.Prelude.{◌≡◌};
ghost use Rattle.peck_form.specs.Answers.{letter_of_peck, groove_cause, hole_cause};

use crate::kind::{letter_of_place, other_axis};
use peck_cycle::{Along, PeckFault};
use plain_form::PlainCause;

/// What a cause of a groove is for its words.
pub(crate) fn groove_cause(along: Along, fault: PeckFault) -> PlainCause
    ensures { result ≡ groove_cause along fault }
{
    match fault {
        PeckFault::TooLarge => PlainCause::Position,
        PeckFault::NoDepth => PlainCause::Range(letter_of_place(along)),
        PeckFault::NoPeck => PlainCause::Range(letter_of_peck(along)),
        PeckFault::NoStep => PlainCause::Range(letter_of_peck(other_axis(along))),
        PeckFault::WrongSide => PlainCause::Start,
    }
}

/// The letter of a step of a groove along an axis: P in X, Q in Z.
fn letter_of_peck(along: Along) -> u8
    ensures { result ≡ letter_of_peck along }
{
    match along {
        Along::Z => b'Q',
        Along::X => b'P',
    }
}

/// What a cause of a hole is for its words.
pub(crate) fn hole_cause(along: Along, fault: PeckFault) -> PlainCause
    ensures { result ≡ hole_cause along fault }
{
    match fault {
        PeckFault::TooLarge => PlainCause::Position,
        PeckFault::NoDepth => PlainCause::Range(letter_of_place(along)),
        PeckFault::NoPeck => PlainCause::Range(b'Q'),
        PeckFault::NoStep => PlainCause::Range(b'Q'),
        PeckFault::WrongSide => PlainCause::Range(b'R'),
    }
}
