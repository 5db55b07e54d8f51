//! A text of a tape as it is read for its waits alone. specs/Opened.antt defines it.
ghost use Rattle.std.specs.Prelude.{◌≡◌, ◌++◌, length, IfOk, OnOk};
ghost use Rattle.open_text.specs.declared.place.Place.TheVariants as Place;
ghost use Rattle.std.specs.Option.{option_to_list};
ghost use Rattle.open_text.specs.Opened.{text_behind, place_behind, is_computed, has_computed, jumps_of, calls_there, has_call, calls_of, opened_text};

use crate::bytes::{is_call, is_gap};
use crate::manner::{Calls, Jumps, Manner};
use crate::place::Place;
use crate::spot::Spot;
use crate::steps::step;
use nc_number::NoMemory;
use std::alloc::Global;

/// Where the next byte stands, if this one stands outside comments.
fn text_behind(byte: u8) -> Place
    ensures { result ≡ text_behind byte }
{
    if byte == b'(' {
        Place::Note
    } else if byte.to_ascii_uppercase() == b'O' {
        Place::BehindO
    } else {
        Place::Text
    }
}

/// Where the next byte stands.
fn place_behind(place: Place, byte: u8) -> Place
    ensures { result ≡ place_behind place byte }
{
    match place {
        Place::Text => text_behind(byte),
        Place::BehindO => {
            if byte == b'(' {
                Place::NoteBehindO
            } else if is_gap(byte) {
                Place::BehindO
            } else {
                text_behind(byte)
            }
        }
        Place::Note => {
            if byte == b')' || byte == b'\n' {
                Place::Text
            } else {
                Place::Note
            }
        }
        Place::NoteBehindO => {
            if byte == b')' || byte == b'\n' {
                Place::BehindO
            } else {
                Place::NoteBehindO
            }
        }
    }
}

/// Whether the byte is `#` or `[` behind an O, as in a GOTO whose target is computed.
fn is_computed(place: Place, byte: u8) -> bool
    ensures { result ≡ is_computed place byte }
{
    match place {
        Place::Text => false,
        Place::BehindO => byte == b'#' || byte == b'[',
        Place::Note => false,
        Place::NoteBehindO => false,
    }
}

/// Whether a GOTO of the text has a target that is computed; anything else with an O before `#` or `[`
/// counts as one too.
fn has_computed(text: &[u8]) -> bool
    ensures { result ≡ has_computed Place.Text text.now }
{
    let mut place = Place::Text;
    for byte in text {
        if is_computed(place, *byte) {
            return true;
        }
        place = place_behind(place, *byte);
    }
    false
}

/// How the jumps of a text name their targets.
fn jumps_of(text: &[u8]) -> Jumps
    ensures { result ≡ jumps_of text.now }
{
    if has_computed(text) {
        Jumps::Computed
    } else {
        Jumps::Written
    }
}

/// Whether a byte outside comments begins a call.
fn calls_there(place: Place, byte: u8, rest: &[u8]) -> bool
    ensures { result ≡ calls_there place byte rest.now }
{
    match place {
        Place::Text => is_call(byte, rest),
        Place::BehindO => is_call(byte, rest),
        Place::Note => false,
        Place::NoteBehindO => false,
    }
}

/// Whether a byte of the text, outside comments, begins a call of a program.
fn has_call(text: &[u8]) -> bool
    ensures { result ≡ has_call Place.Text text.now }
{
    let mut place = Place::Text;
    let mut left = text;
    while let Some((first, rest)) = left.split_first() {
        if calls_there(place, *first, rest) {
            return true;
        }
        place = place_behind(place, *first);
        left = rest;
    }
    false
}

/// Whether a text calls programs.
fn calls_of(text: &[u8]) -> Calls
    ensures { result ≡ calls_of text.now }
{
    if has_call(text) {
        Calls::Any
    } else {
        Calls::Never
    }
}

/// Adds what stands for a byte. The only error is out of memory.
fn push_shown(bytes: &mut Vec<u8>, byte: Option<u8>) -> Result<(), NoMemory>
    ensures { OnOk result (bytes.new.items ≡ bytes.old.items ++ option_to_list byte) }
{
    match byte {
        Some(byte) => {
            bytes.push(byte)?;
            Ok(())
        }
        None => Ok(()),
    }
}

/// The text of a tape as it is read for its waits alone, where blocks of these switches are skipped
/// (bit n is switch n). The only error is out of memory.
///
/// What the reader of tapes refuses and no wait depends on is taken out or replaced by blanks: commas,
/// the index of a word such as `S1=2500`, what a control punches before a line, blocks that write
/// something out (DPRNT, BPRNT, POPEN, PCLOS, SETVN), all but one of several skip signs in a row, and
/// sequence numbers to which no jump leads: those after another word, and those of six to eight
/// digits if no jump of the text is computed. If the text calls no program, the name of one in `< >`,
/// and an O number of five to eight digits, read as O1. Each line keeps its number.
pub fn open_text(alloc: Global, skips: u16, text: &[u8]) -> Result<Vec<u8>, NoMemory>
    ensures { IfOk result (λ bytes. bytes.items ≡ opened_text skips text.now) }
{
    let manner = Manner {
        skips,
        jumps: jumps_of(text),
        calls: calls_of(text),
    };
    let mut bytes = Vec::with_capacity(alloc, text.len())?;
    let mut spot = Spot::Start;
    let mut left = text;
    while let Some((first, rest)) = left.split_first() {
        let taken = step(manner, spot, *first, rest, left);
        push_shown(&mut bytes, taken.byte)?;
        spot = taken.spot;
        left = rest;
    }
    Ok(bytes)
}
