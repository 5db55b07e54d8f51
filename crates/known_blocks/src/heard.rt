//! What the words of a block say, by the text alone. behind.rt asks it.
ghost use Rattle.std.specs.Prelude.{◌≡◌};
ghost use Rattle.nc_number.specs.Arithmetic.{whole_of};
ghost use Rattle.block_words.specs.Codes.{natural_number};
ghost use Rattle.block_words.specs.Words.{is_one_of};
ghost use Rattle.known_blocks.specs.Heard.{silence, heard_length, heard_setting, heard_with, heard_word, heard_words};

use block_words::{FlowWord, WordValue, is_one_of};
use nc_number::{Literal, Var};

/// What is known of the values of a block's words. Of each address `None`: it is calculated. Of a
/// length and of T `Some(None)`: the block has no such word; of F that is `Some(Var::Vacant)`.
#[derive(Clone, Copy, Debug, PartialEq, Eq)]
pub struct Heard {
    /// X in 0.001 mm.
    pub x: Option<Option<i64>>,
    /// Z in 0.001 mm.
    pub z: Option<Option<i64>>,
    /// U in 0.001 mm.
    pub u: Option<Option<i64>>,
    /// W in 0.001 mm.
    pub w: Option<Option<i64>>,
    /// F.
    pub feed: Option<Var>,
    /// T as a whole number.
    pub tool: Option<Option<u32>>,
}

impl Heard {
    /// No word said anything.
    pub fn silence() -> Heard
        ensures { result ≡ silence }
    {
        Heard {
            x: Some(None),
            z: Some(None),
            u: Some(None),
            w: Some(None),
            feed: Some(Var::Vacant),
            tool: Some(None),
        }
    }
}

/// The number of a literal, if it is whole and not below 0.
fn natural(literal: &Literal) -> Option<u32>
    ensures { result ≡ natural_number (whole_of literal.now.value) }
{
    match literal.whole() {
        Some(number) if number >= 0 => Some(number.unsigned_abs() as u32),
        _ => None,
    }
}

/// With a length taken; every other letter leaves what was heard.
fn heard_length(letter: u8, length: Option<Option<i64>>, heard: &Heard) -> Heard
    ensures { result ≡ heard_length letter length heard.now }
{
    match letter {
        b'X' => Heard {
            x: length,
            ..*heard
        },
        b'Z' => Heard {
            z: length,
            ..*heard
        },
        b'U' => Heard {
            u: length,
            ..*heard
        },
        b'W' => Heard {
            w: length,
            ..*heard
        },
        _ => *heard,
    }
}

/// With F or T taken; every other letter leaves what was heard.
fn heard_setting(letter: u8, feed: Option<Var>, tool: Option<Option<u32>>, heard: &Heard) -> Heard
    ensures { result ≡ heard_setting letter feed tool heard.now }
{
    match letter {
        b'F' => Heard { feed, ..*heard },
        b'T' => Heard { tool, ..*heard },
        _ => *heard,
    }
}

/// With a word taken. Beside a dwell X, U, Z and W are no lengths.
fn heard_with(
    dwell: bool,
    letter: u8,
    length: Option<Option<i64>>,
    feed: Option<Var>,
    tool: Option<Option<u32>>,
    heard: &Heard,
) -> Heard
    ensures { result ≡ heard_with dwell letter length feed tool heard.now }
{
    if is_one_of(b"XUZWP", letter) && dwell {
        *heard
    } else if is_one_of(b"XZUWIKR", letter) {
        heard_length(letter, length, heard)
    } else {
        heard_setting(letter, feed, tool, heard)
    }
}

/// With a word of this value taken.
fn heard_word(dwell: bool, letter: u8, value: &WordValue, heard: &Heard) -> Heard
    ensures { result ≡ heard_word dwell letter value.now heard.now }
{
    match value {
        WordValue::Fixed(literal) => heard_with(
            dwell,
            letter,
            Some(Some(literal.thousandths())),
            Some(Var::Is(literal.value())),
            Some(natural(literal)),
            heard,
        ),
        WordValue::Computed { .. } => heard_with(dwell, letter, None, None, None, heard),
    }
}

/// What all words of a block say. `dwell` says whether its codes make it a dwell.
pub fn heard_words(dwell: bool, words: &[FlowWord]) -> Heard
    ensures { result ≡ heard_words dwell words.now silence }
{
    let mut heard = Heard::silence();
    for word in words {
        heard = heard_word(dwell, word.letter, &word.value, &heard);
    }
    heard
}
