//! The contour of a cycle G70 to G73: which blocks its P and Q name.
//! cycles.rt finds what is wrong with it; trusting.rt takes `is_macro_call`. The codes stand in
//! open_forms too (src/codes.rt, specs/Codes), which looks at the P and Q of such a cycle.
ghost use Rattle.std.specs.Prelude.{◌≡◌};
ghost use Rattle.open_order.specs.Contours.{is_cycle_code, is_macro_code, has_code, contour_by, contour_in};

use block_forms::is_one_of;
use nc_text::{Block, Body, Word};
use open_forms::{last_number, written};

/// The blocks of a contour: from the one of a sequence number to the one of another.
#[derive(Clone, Copy, Debug, PartialEq, Eq)]
pub(crate) struct Contour {
    /// The sequence number that P names.
    pub(crate) from: u32,
    /// The sequence number that Q names.
    pub(crate) to: u32,
}

/// Whether a code, in millionths, is G70, G71, G72 or G73.
fn is_cycle_code(micro: Option<i64>) -> bool
    ensures { result ≡ is_cycle_code micro }
{
    match micro {
        Some(micro) => {
            (micro == 70_000_000 || micro == 71_000_000)
                || (micro == 72_000_000 || micro == 73_000_000)
        }
        None => false,
    }
}

/// Whether a code, in millionths, is G65, a macro call.
fn is_macro_code(micro: Option<i64>) -> bool
    ensures { result ≡ is_macro_code micro }
{
    match micro {
        Some(micro) => micro == 65_000_000,
        None => false,
    }
}

/// Whether one of the words is G70, G71, G72 or G73.
fn is_cycle(words: &[Word]) -> bool
    ensures { result ≡ has_code is_cycle_code words.now }
{
    words.iter().any(|word| is_one_of(b"G", word.letter) && is_cycle_code(written(word)))
}

/// Whether the words are a macro call (G65): its P names a program, and no contour.
pub(crate) fn is_macro_call(words: &[Word]) -> bool
    ensures { result ≡ has_code is_macro_code words.now }
{
    words.iter().any(|word| is_one_of(b"G", word.letter) && is_macro_code(written(word)))
}

/// A contour by the numbers of its P and Q, if both are there.
fn contour_by(from: Option<u32>, to: Option<u32>) -> Option<Contour>
    ensures { result ≡ contour_by from to }
{
    match from {
        Some(from) => match to {
            Some(to) => Some(Contour { from, to }),
            None => None,
        }
        None => None,
    }
}

/// The contour of the cycle that a block begins, if it begins one: from its P to its Q.
pub(crate) fn contour_in(block: &Block) -> Option<Contour>
    ensures { result ≡ contour_in block.now.body }
{
    match &block.body {
        Body::Words(words) => {
            let words = words.as_slice();
            if !is_macro_call(words) && is_cycle(words) {
                contour_by(last_number(words, b"P"), last_number(words, b"Q"))
            } else {
                None
            }
        }
        Body::Statement(_) => None,
    }
}
