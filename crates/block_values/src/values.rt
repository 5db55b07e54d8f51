//! What the words of a block say once each is evaluated: lengths in 0.001 mm, F, S, T and P; and
//! when a word is refused (56, 64).
ghost use Rattle.std.specs.Prelude.{◌≡◌, ◌≤◌, true, codes, unsigned_abs, Ok, Err, IfOk, IfErr, OnOk};
ghost use Rattle.block_words.specs.Ranges.{fits, range_of};
ghost use Rattle.block_words.specs.Words.{is_one_of};
ghost use Rattle.block_words.specs.declared.range.Range.TheVariants.{Between};
ghost use Rattle.nc_number.specs.Arithmetic.{whole_of};
ghost use Rattle.block_words.specs.Codes.{natural_number};
ghost use Rattle.block_values.specs.Values.{is_meant, is_dwell, with_rest, with_length, with_setting, with_word, values_with, nothing_said};
ghost use Rattle.block_values.specs.Within.{longest_said, AreLengthsSaid};
ghost use Rattle.block_values.specs.Seen.{values_seen, values_of, sense_seen};

use crate::sense::Sense;
use block_words::{Purpose, fits_word, is_one_of};
use nc_number::{Cause, Literal, Var};

/// What the words of a block say; of an address given twice the last that is not vacant.
#[derive(Clone, Copy, Debug, PartialEq, Eq)]
pub struct Values {
    /// X in 0.001 mm, on the diameter.
    pub x: Option<i64>,
    /// Z in 0.001 mm.
    pub z: Option<i64>,
    /// U in 0.001 mm: a way along X, on the diameter.
    pub u: Option<i64>,
    /// W in 0.001 mm: a way along Z.
    pub w: Option<i64>,
    /// I in 0.001 mm: from an arc's start to its centre along X, on the radius.
    pub i: Option<i64>,
    /// K in 0.001 mm: from an arc's start to its centre along Z.
    pub k: Option<i64>,
    /// R in 0.001 mm: an arc's radius.
    pub r: Option<i64>,
    /// F, which counts whole units without a point.
    pub feed: Var,
    /// S, which counts whole units without a point.
    pub speed: Var,
    /// T, at most 9,999.
    pub tool: Option<u16>,
    /// P of the setting of an offset (G10): the number of the offset.
    pub number: Option<i64>,
    /// How long a dwell is, in milliseconds.
    pub rest: Option<u64>,
}

impl Values {
    /// Nothing is said.
    pub fn nothing() -> Values
        ensures said { values_seen result ≡ nothing_said }
        ensures within { AreLengthsSaid result }
    {
        Values {
            x: None,
            z: None,
            u: None,
            w: None,
            i: None,
            k: None,
            r: None,
            feed: Var::Vacant,
            speed: Var::Vacant,
            tool: None,
            number: None,
            rest: None,
        }
    }
}

/// The number of a literal, if it is whole and not below 0.
fn natural(literal: &Literal) -> Option<u32>
    ensures { result ≡ natural_number (whole_of literal.now.value) }
{
    match literal.whole() {
        Some(number) if number >= 0 => Some(number.unsigned_abs() as u32),
        _ => None,
    }
}

/// The number of a tool, which is whole and at most 9,999 in a literal of that range.
fn tool_of(literal: &Literal) -> Option<u16>
    requires { fits (Between 0 9999) literal.now ≡ true }
    ensures { result ≡ natural_number (whole_of literal.now.value) }
{
    match natural(literal) {
        Some(number) => Some(number as u16),
        None => None,
    }
}

/// Whether a word of this letter means something in a block of this sense: I and K beside an arc, R
/// beside an arc or G10, every other letter always.
fn is_meant(sense: &Sense, letter: u8) -> bool
    ensures { result ≡ is_meant (sense_seen sense.now) letter }
{
    match letter {
        b'I' | b'K' => sense.arc,
        b'R' => sense.arc || sense.setting,
        _ => true,
    }
}

/// Takes a word of a dwell: X, U and P say how long it is; Z and W are read and ignored.
fn set_rest(letter: u8, literal: &Literal, values: &mut Values)
    ensures said { values_seen values.new ≡ with_rest letter literal.now (values_seen values.old) }
    ensures within { AreLengthsSaid values.old → AreLengthsSaid values.new }
{
    match letter {
        b'X' | b'U' => values.rest = Some(literal.thousandths().unsigned_abs()),
        b'P' => values.rest = natural(literal).map(u64::from),
        _ => {}
    }
}

/// Takes a length: along an axis, to the centre of an arc, or its radius.
fn set_length(letter: u8, length: i64, values: &mut Values)
    requires { unsigned_abs length ≤ longest_said }
    ensures said { values_seen values.new ≡ with_length letter length (values_seen values.old) }
    ensures within { AreLengthsSaid values.old → AreLengthsSaid values.new }
{
    match letter {
        b'X' => values.x = Some(length),
        b'Z' => values.z = Some(length),
        b'U' => values.u = Some(length),
        b'W' => values.w = Some(length),
        b'I' => values.i = Some(length),
        b'K' => values.k = Some(length),
        b'R' => values.r = Some(length),
        _ => {}
    }
}

/// Takes F, S, T or the number of an offset; every other word leaves the values.
fn set_setting(sense: &Sense, letter: u8, literal: &Literal, values: &mut Values)
    requires { fits (range_of sense.now.purpose letter) literal.now ≡ true }
    ensures said { values_seen values.new
        ≡ with_setting (sense_seen sense.now) letter literal.now (values_seen values.old) }
    ensures within { AreLengthsSaid values.old → AreLengthsSaid values.new }
{
    match letter {
        b'F' => values.feed = Var::Is(literal.value()),
        b'S' => values.speed = Var::Is(literal.value()),
        b'T' => values.tool = tool_of(literal),
        b'P' if matches!(sense.purpose, Purpose::Setting) => values.number = literal.whole(),
        _ => {}
    }
}

/// Whether the codes of the block make it a dwell (G04).
fn is_dwell(sense: &Sense) -> bool
    ensures { result ≡ is_dwell sense.now.purpose }
{
    matches!(sense.purpose, Purpose::Dwell)
}

/// Whether a word of this letter says a length in a block that is no dwell.
fn is_length(letter: u8) -> bool
    ensures { result ≡ is_one_of (codes "XZUWIKR") letter }
{
    matches!(letter, b'X' | b'Z' | b'U' | b'W' | b'I' | b'K' | b'R')
}

/// Puts a word that is in its range into the values.
fn set_word(sense: &Sense, letter: u8, literal: &Literal, values: &mut Values)
    requires { fits (range_of sense.now.purpose letter) literal.now ≡ true }
    ensures said { values_seen values.new
        ≡ with_word (sense_seen sense.now) letter literal.now (values_seen values.old) }
    ensures within { AreLengthsSaid values.old → AreLengthsSaid values.new }
{
    if is_dwell(sense) && is_one_of(b"XUZWP", letter) {
        set_rest(letter, literal, values);
    } else if is_length(letter) {
        set_length(letter, literal.increments(), values);
    } else {
        set_setting(sense, letter, literal, values);
    }
}

/// Takes a word into the values: 56 of I, K and R that mean nothing, then 64 of a word out of its
/// range.
pub(crate) fn take_word(
    sense: &Sense,
    letter: u8,
    literal: &Literal,
    values: &mut Values,
) -> Result<(), Cause>
    ensures taken { OnOk result
        (values_with (sense_seen sense.now) letter literal.now (values_seen values.old) ≡ Ok (values_seen values.new)) }
    ensures refused { IfErr result
        (λ cause. values_with (sense_seen sense.now) letter literal.now (values_seen values.old) ≡ Err cause) }
    ensures within { AreLengthsSaid values.old → AreLengthsSaid values.new }
{
    if !is_meant(sense, letter) {
        Err(Cause::UnknownCode)
    } else if fits_word(sense.purpose, letter, literal) {
        set_word(sense, letter, literal, values);
        Ok(())
    } else {
        Err(Cause::WordRange)
    }
}

/// The values with a word taken: 56 of I, K and R that mean nothing, then 64 of a word out of its
/// range.
pub fn taken(sense: &Sense, letter: u8, literal: &Literal, values: Values) -> Result<Values, Cause>
    ensures said { values_of result ≡ values_with (sense_seen sense.now) letter literal.now (values_seen values) }
    ensures within { AreLengthsSaid values → IfOk result AreLengthsSaid }
{
    let mut after = values;
    match take_word(sense, letter, literal, &mut after) {
        Ok(()) => Ok(after),
        Err(cause) => Err(cause),
    }
}
