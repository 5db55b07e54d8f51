//! How the blocks of a contour move.
ghost use Rattle.std.specs.Prelude.{◌≡◌};
ghost use Rattle.contour_words.specs.Motions.{motion_of_code, motion_said, motion_by};

use nc_text::Word;
use plain_form::{Said, last_said};

/// How a block of a contour moves.
#[derive(Clone, Copy, Debug, PartialEq, Eq)]
pub enum Motion {
    /// At rapid traverse (G00).
    Rapid,
    /// Along a line (G01).
    Line,
    /// Along an arc: clockwise (G02), or the other way (G03).
    Round {
        /// Whether it goes clockwise.
        clockwise: bool,
    },
}

/// The motion of this code, in millionths, if the code is one of a contour.
fn motion_of_code(code: i64) -> Option<Motion>
    ensures { result ≡ motion_of_code code }
{
    if code == 0 {
        Some(Motion::Rapid)
    } else if code == 1_000_000 {
        Some(Motion::Line)
    } else if code == 2_000_000 {
        Some(Motion::Round { clockwise: true })
    } else if code == 3_000_000 {
        Some(Motion::Round { clockwise: false })
    } else {
        None
    }
}

/// The motion that the last G code of the words says, if it is one of a contour.
pub(crate) fn motion_said(words: &[Word]) -> Option<Motion>
    ensures { result ≡ motion_said words.now }
{
    match last_said(words, b'G') {
        Said::Number(literal) => motion_of_code(literal.value.micro()),
        Said::Nothing | Said::Calculated => None,
    }
}

/// How a block moves, which the block before it left so.
pub(crate) fn motion_by(words: &[Word], before: Motion) -> Motion
    ensures { result ≡ motion_by words.now before }
{
    match motion_said(words) {
        Some(motion) => motion,
        None => before,
    }
}
