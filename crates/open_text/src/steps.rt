//! One step over a text: what stands for a byte, and where the next one stands. opening.rt takes a
//! step for each byte. specs/Opened.antt defines each.
ghost use Rattle.std.specs.Prelude.{◌≡◌, ◌∷◌, ◌||◌, ◌&&◌, ◌==◌, not};
ghost use Rattle.open_text.specs.Opened.{shown, blanked, dropped, word_step, lost_step, letter_step, index_step, statement_step, output_step, note_step, block_step, are_written, is_unread, replaced, calls_none, name_number_step, name_step, long_name_step, front_step, sign_step, head_step, start_step, passed_step, kept_step, switch_step, extra_step, number_step, long_step, step};

use crate::bytes::{
    is_feed_ahead, is_gap, is_index_ahead, is_long_ahead, is_n, is_name_ahead, is_number_ahead,
    is_number_part, is_on, is_other_ahead, is_output, is_punch, is_statement, is_switch,
    opens_name, switch_ahead, takes_index,
};
use crate::manner::{Calls, Jumps, Manner};
use crate::spot::{Spot, Step};

/// The byte stays, but for a comma, which becomes a blank.
fn shown(byte: u8, spot: Spot) -> Step
    ensures { result ≡ shown byte spot }
{
    let byte = if byte == b',' { b' ' } else { byte };
    Step {
        byte: Some(byte),
        spot,
    }
}

/// A blank stands for the byte.
fn blanked(spot: Spot) -> Step
    ensures { result ≡ blanked spot }
{
    Step {
        byte: Some(b' '),
        spot,
    }
}

/// Nothing stands for the byte.
fn dropped(spot: Spot) -> Step
    ensures { result ≡ dropped spot }
{
    Step { byte: None, spot }
}

/// A byte among words. Blanks stand for a sequence number after another word, which is no target of a
/// jump.
fn word_step(byte: u8, rest: &[u8]) -> Step
    ensures { result ≡ word_step byte rest.now }
{
    if byte == b'\n' {
        shown(byte, Spot::Start)
    } else if byte == b'(' {
        shown(byte, Spot::WordNote)
    } else if is_n(byte) && is_number_ahead(rest) {
        blanked(Spot::LostNumber)
    } else if takes_index(byte) {
        shown(byte, Spot::Letter)
    } else {
        shown(byte, Spot::Words)
    }
}

/// A byte in a sequence number for which blanks stand, or the one after it.
fn lost_step(byte: u8, rest: &[u8]) -> Step
    ensures { result ≡ lost_step byte rest.now }
{
    if is_gap(byte) || is_number_part(byte) {
        blanked(Spot::LostNumber)
    } else {
        word_step(byte, rest)
    }
}

/// A byte after a letter whose words may have an index: blanks stand for the index of `S1=2500`.
fn letter_step(byte: u8, rest: &[u8]) -> Step
    ensures { result ≡ letter_step byte rest.now }
{
    if byte.is_ascii_digit() && is_index_ahead(rest) {
        blanked(Spot::Index)
    } else {
        word_step(byte, rest)
    }
}

/// A byte after the first digit of an index.
fn index_step(byte: u8, rest: &[u8]) -> Step
    ensures { result ≡ index_step byte rest.now }
{
    if byte.is_ascii_digit() {
        blanked(Spot::Index)
    } else if byte == b'=' {
        blanked(Spot::Words)
    } else {
        word_step(byte, rest)
    }
}

/// A byte of a statement, which stays as it is.
fn statement_step(byte: u8) -> Step
    ensures { result ≡ statement_step byte }
{
    if byte == b'\n' {
        shown(byte, Spot::Start)
    } else {
        shown(byte, Spot::Statement)
    }
}

/// A byte of a block that writes something out.
fn output_step(byte: u8) -> Step
    ensures { result ≡ output_step byte }
{
    if byte == b'\n' {
        shown(byte, Spot::Start)
    } else {
        blanked(Spot::Output)
    }
}

/// A byte in a comment, after which the line goes on as before it. A line feed ends the comment too.
fn note_step(inside: Spot, behind: Spot, byte: u8) -> Step
    ensures { result ≡ note_step inside behind byte }
{
    if byte == b'\n' {
        shown(byte, Spot::Start)
    } else if byte == b')' {
        shown(byte, behind)
    } else {
        shown(byte, inside)
    }
}

/// The first byte of a block after its sequence number; `text` begins with it.
fn block_step(byte: u8, rest: &[u8], text: &[u8]) -> Step
    requires { text.now ≡ byte ∷ rest.now }
    ensures { result ≡ block_step byte rest.now }
{
    if is_output(text) {
        blanked(Spot::Output)
    } else if is_statement(text) {
        shown(byte, Spot::Statement)
    } else {
        word_step(byte, rest)
    }
}

/// Whether all jumps of the text write their targets out.
fn are_written(jumps: Jumps) -> bool
    ensures { result ≡ are_written jumps }
{
    match jumps {
        Jumps::Written => true,
        Jumps::Computed => false,
    }
}

/// Whether blanks stand for the sequence number ahead: it has six to eight digits, and no jump of the
/// text is computed, so none leads to it.
fn is_unread(manner: Manner, rest: &[u8]) -> bool
    ensures { result ≡ is_unread manner rest.now }
{
    are_written(manner.jumps) && is_long_ahead(rest)
}

/// This byte stands for the byte.
fn replaced(by: u8, spot: Spot) -> Step
    ensures { result ≡ replaced by spot }
{
    Step {
        byte: Some(by),
        spot,
    }
}

/// Whether the text calls no program.
fn calls_none(calls: Calls) -> bool
    ensures { result ≡ calls_none calls }
{
    match calls {
        Calls::Never => true,
        Calls::Any => false,
    }
}

/// The byte after an O, for which 1 stands: it opens a name, or is the first of a number.
fn name_number_step(byte: u8) -> Step
    ensures { result ≡ name_number_step byte }
{
    if byte == b'<' {
        replaced(b'1', Spot::Name)
    } else {
        replaced(b'1', Spot::LongName)
    }
}

/// A byte of a name, which is closed on the line.
fn name_step(byte: u8) -> Step
    ensures { result ≡ name_step byte }
{
    if byte == b'\n' {
        shown(byte, Spot::Start)
    } else if byte == b'>' {
        blanked(Spot::Words)
    } else {
        blanked(Spot::Name)
    }
}

/// A byte of an O number that is not read, or the one after it.
fn long_name_step(byte: u8, rest: &[u8]) -> Step
    ensures { result ≡ long_name_step byte rest.now }
{
    if is_gap(byte) || byte.is_ascii_digit() {
        blanked(Spot::LongName)
    } else {
        word_step(byte, rest)
    }
}

/// The first byte of a block, after its skip signs. If the text calls no program, the name of a
/// program reads as O1, and so does an O number of five to eight digits.
fn front_step(manner: Manner, byte: u8, rest: &[u8], text: &[u8]) -> Step
    requires { text.now ≡ byte ∷ rest.now }
    ensures { result ≡ front_step manner byte rest.now }
{
    if is_n(byte) {
        if is_unread(manner, rest) {
            blanked(Spot::LongNumber)
        } else {
            shown(byte, Spot::Number)
        }
    } else if calls_none(manner.calls) && (byte == b'O' && is_name_ahead(rest)) {
        shown(byte, Spot::NameNumber)
    } else if calls_none(manner.calls) && opens_name(byte, rest) {
        replaced(b'O', Spot::NameFirst)
    } else {
        block_step(byte, rest, text)
    }
}

/// A skip sign before which no other counts. Of several in a row the first one counts whose switch is
/// on, or else the last one; blanks stand for the others.
fn sign_step(manner: Manner, rest: &[u8]) -> Step
    ensures { result ≡ sign_step manner rest.now }
{
    if is_other_ahead(rest) && !is_on(manner.skips, switch_ahead(rest)) {
        blanked(Spot::Passed)
    } else {
        shown(b'/', Spot::Sign)
    }
}

/// A byte at the head of a line, before a skip sign that counts.
fn head_step(manner: Manner, byte: u8, rest: &[u8], text: &[u8]) -> Step
    requires { text.now ≡ byte ∷ rest.now }
    ensures { result ≡ head_step manner byte rest.now }
{
    if byte == b'\n' {
        shown(byte, Spot::Start)
    } else if byte == b'(' {
        shown(byte, Spot::HeadNote)
    } else if is_gap(byte) {
        shown(byte, Spot::Head)
    } else if byte == b'/' {
        sign_step(manner, rest)
    } else {
        front_step(manner, byte, rest, text)
    }
}

/// A byte at the start of a line, where what a control punches before a line is taken out. A carriage
/// return directly before a line feed stays.
fn start_step(manner: Manner, byte: u8, rest: &[u8], text: &[u8]) -> Step
    requires { text.now ≡ byte ∷ rest.now }
    ensures { result ≡ start_step manner byte rest.now }
{
    if is_punch(byte) && !is_feed_ahead(rest) {
        dropped(Spot::Start)
    } else {
        head_step(manner, byte, rest, text)
    }
}

/// A byte after a skip sign that does not count.
fn passed_step(manner: Manner, byte: u8, rest: &[u8], text: &[u8]) -> Step
    requires { text.now ≡ byte ∷ rest.now }
    ensures { result ≡ passed_step manner byte rest.now }
{
    if is_gap(byte) {
        shown(byte, Spot::Passed)
    } else if is_switch(byte) {
        blanked(Spot::Head)
    } else {
        head_step(manner, byte, rest, text)
    }
}

/// A byte at the head of a line, after the skip sign that counts.
fn kept_step(manner: Manner, byte: u8, rest: &[u8], text: &[u8]) -> Step
    requires { text.now ≡ byte ∷ rest.now }
    ensures { result ≡ kept_step manner byte rest.now }
{
    if byte == b'\n' {
        shown(byte, Spot::Start)
    } else if byte == b'(' {
        shown(byte, Spot::KeptNote)
    } else if is_gap(byte) {
        shown(byte, Spot::Kept)
    } else if byte == b'/' {
        blanked(Spot::Extra)
    } else {
        front_step(manner, byte, rest, text)
    }
}

/// A byte directly after the skip sign that counts.
fn switch_step(manner: Manner, byte: u8, rest: &[u8], text: &[u8]) -> Step
    requires { text.now ≡ byte ∷ rest.now }
    ensures { result ≡ switch_step manner byte rest.now }
{
    if is_gap(byte) {
        shown(byte, Spot::Sign)
    } else if is_switch(byte) {
        shown(byte, Spot::Kept)
    } else {
        kept_step(manner, byte, rest, text)
    }
}

/// A byte after a further skip sign.
fn extra_step(manner: Manner, byte: u8, rest: &[u8], text: &[u8]) -> Step
    requires { text.now ≡ byte ∷ rest.now }
    ensures { result ≡ extra_step manner byte rest.now }
{
    if is_gap(byte) {
        shown(byte, Spot::Extra)
    } else if is_switch(byte) {
        blanked(Spot::Kept)
    } else {
        kept_step(manner, byte, rest, text)
    }
}

/// A byte of a sequence number at the head of a block, or the one after it.
fn number_step(byte: u8, rest: &[u8], text: &[u8]) -> Step
    requires { text.now ≡ byte ∷ rest.now }
    ensures { result ≡ number_step byte rest.now }
{
    if is_gap(byte) || is_number_part(byte) {
        shown(byte, Spot::Number)
    } else {
        block_step(byte, rest, text)
    }
}

/// A byte of a sequence number that is not read, or the one after it.
fn long_step(byte: u8, rest: &[u8], text: &[u8]) -> Step
    requires { text.now ≡ byte ∷ rest.now }
    ensures { result ≡ long_step byte rest.now }
{
    if is_gap(byte) || byte.is_ascii_digit() {
        blanked(Spot::LongNumber)
    } else {
        block_step(byte, rest, text)
    }
}

/// What stands for a byte, and where the next one stands, by where the byte stands and what is after
/// it; `text` begins with the byte.
pub(crate) fn step(manner: Manner, spot: Spot, byte: u8, rest: &[u8], text: &[u8]) -> Step
    requires { text.now ≡ byte ∷ rest.now }
    ensures { result ≡ step manner spot byte rest.now }
{
    match spot {
        Spot::Start => start_step(manner, byte, rest, text),
        Spot::Head => head_step(manner, byte, rest, text),
        Spot::HeadNote => note_step(Spot::HeadNote, Spot::Head, byte),
        Spot::Passed => passed_step(manner, byte, rest, text),
        Spot::Sign => switch_step(manner, byte, rest, text),
        Spot::Kept => kept_step(manner, byte, rest, text),
        Spot::KeptNote => note_step(Spot::KeptNote, Spot::Kept, byte),
        Spot::Extra => extra_step(manner, byte, rest, text),
        Spot::Number => number_step(byte, rest, text),
        Spot::LongNumber => long_step(byte, rest, text),
        Spot::Words => word_step(byte, rest),
        Spot::WordNote => note_step(Spot::WordNote, Spot::Words, byte),
        Spot::LostNumber => lost_step(byte, rest),
        Spot::Letter => letter_step(byte, rest),
        Spot::Index => index_step(byte, rest),
        Spot::Statement => statement_step(byte),
        Spot::Output => output_step(byte),
        Spot::NameNumber => name_number_step(byte),
        Spot::NameFirst => replaced(b'1', Spot::Name),
        Spot::Name => name_step(byte),
        Spot::LongName => long_name_step(byte, rest),
    }
}
