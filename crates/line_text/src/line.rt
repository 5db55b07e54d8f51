//! A whole line of a tape: whether it is words, a statement or no block, and its least refusal by
//! itself.
ghost use Rattle.std.specs.Prelude.{◌≡◌, ◌-◌, ◌^◌, ◌<◌, length, IfOk, IfSome, ◌≤◌};
ghost use Rattle.nc_number.specs.Answers.{Gives};
ghost use Rattle.line_text.specs.Places.{ArePlaced};
ghost use Rattle.line_text.specs.Said.{read_words, read_numbered, read_statement, read_block, read_head, is_skipped, said_or_refusal, line_says, IsNumbered, statement_reading};

use crate::body::Body;
use crate::cut::{bytes, pieces, value_len};
use crate::front::{begins_statement, behind_comments, front, number_len, sentence};
use crate::line_buffer::LineBuffer;
use crate::refusal::Refusal;
use crate::said::{Reading, Said, SaidBlock};
use crate::sign::{Sign, are_allowed, read_signs};
use crate::values::{has_too_many_digits, number_in};
use crate::words::read_pieces;
use nc_number::{ByteList, Failing, LAST_SEQUENCE, is_literal};
use std::alloc::{AllocError, Global};

/// Reads a block of words, with or without a skip sign.
#[tactic(auto, unfolding(crate::specs::Said::read_words))]
fn read_words(alloc: Global, slash: bool, signs: &[Sign]) -> Result<Reading, AllocError>
    requires short { length signs.now < 2 ^ 32 }
    requires placed { ArePlaced signs.now }
    ensures { IfOk result (λ reading. reading ≡ read_words slash signs.now) }
{
    if value_len(signs) != 0 {
        return Ok(Reading {
            long: false,
            broken: true,
            said: Said::Nothing,
        });
    }
    let pieces = pieces(alloc, signs)?;
    read_pieces(alloc, slash, pieces)
}

/// The literal after N and the text of the statement after it, if the signs are a statement with a
/// sequence number.
fn numbered(alloc: Global, signs: &[Sign]) -> Result<Option<(Vec<u8>, Vec<u8>)>, AllocError>
    ensures { IfOk result (λ found. IsNumbered signs.now found) }
{
    match signs {
        [] => Ok(None),
        [first, others @ ..] => {
            if first.byte != b'N' {
                return Ok(None);
            }
            let (number, behind) = others.split_at(number_len(others));
            if !begins_statement(behind) {
                return Ok(None);
            }
            let number = bytes(alloc, number)?;
            if !is_literal(number.as_slice()) {
                return Ok(None);
            }
            let text = sentence(alloc, behind)?;
            Ok(Some((number, text)))
        }
    }
}

/// A statement as a reading: never broken here, because macro_expr and open_forms read its text.
fn statement(number: Option<u32>, in_range: bool, text: Vec<u8>, long: bool) -> Reading
    ensures { result ≡ statement_reading number in_range text.items long }
{
    Reading {
        long,
        broken: false,
        said: Said::Block(SaidBlock {
            sequence: number,
            in_range,
            body: Body::Statement(ByteList::of(text)),
        }),
    }
}

/// Reads a block after its skip sign: a statement with or without a sequence number, or words.
/// `slash` says whether there was a skip sign.
#[tactic(auto, unfolding(crate::specs::Said::read_block, crate::specs::Said::read_numbered, crate::specs::Said::read_statement))]
fn read_block(alloc: Global, slash: bool, signs: &[Sign]) -> Result<Reading, AllocError>
    requires short { length signs.now < 2 ^ 32 }
    requires placed { ArePlaced signs.now }
    ensures { IfOk result (λ reading. reading ≡ read_block slash signs.now) }
{
    if let Some((number, text)) = numbered(alloc, signs)? {
        let long = has_too_many_digits(number.as_slice());
        let sequence = number_in(0, LAST_SEQUENCE, number.as_slice());
        return Ok(statement(sequence, sequence.is_some(), text, long));
    }
    if begins_statement(signs) {
        let text = sentence(alloc, signs)?;
        return Ok(statement(None, true, text, false));
    }
    read_words(alloc, slash, signs)
}

/// Whether the block is skipped: bit n of the skips is switch n. Without a skip sign it never is.
fn is_skipped(skips: u16, switch: Option<u8>) -> bool
    requires { IfSome switch (λ n. n ≤ 9) }
    ensures { result ≡ is_skipped skips switch }
{
    match switch {
        None => false,
        Some(switch) => (skips >> switch) % 2 == 1,
    }
}

/// The least refusal of a line by itself, or what it says. A skipped block says nothing, and too
/// many digits do not refuse it; its other faults do.
fn judged(
    skipped: bool,
    allowed: bool,
    unclosed: bool,
    reading: Reading,
) -> Result<Said, Failing<Refusal>>
    ensures { Gives (λ said. said) result (said_or_refusal skipped allowed unclosed reading) }
{
    if reading.long && !skipped {
        Err(Failing::Fault(Refusal::TooManyDigits))
    } else if !allowed {
        Err(Failing::Fault(Refusal::BadCharacter))
    } else if reading.broken {
        Err(Failing::Fault(Refusal::NoNumber))
    } else if unclosed {
        Err(Failing::Fault(Refusal::OpenComment))
    } else if skipped {
        Ok(Said::Nothing)
    } else {
        Ok(reading.said)
    }
}

/// Reads what stands after the comments that a line begins with.
#[tactic(auto, unfolding(crate::specs::Said::read_head))]
fn read_head(alloc: Global, head: &[Sign]) -> Result<Reading, AllocError>
    requires short { length head.now < 2 ^ 32 }
    requires placed { ArePlaced head.now }
    ensures { IfOk result (λ reading. reading ≡ read_head head.now) }
{
    if head.is_empty() {
        return Ok(Reading {
            long: false,
            broken: false,
            said: Said::Nothing,
        });
    }
    let (switch, rest) = front(head);
    read_block(alloc, switch.is_some(), behind_comments(rest))
}

/// What a line says, or its least refusal by itself. Bit n of `skips` is switch n; `ended` says
/// whether a line feed ends the line.
#[tactic(auto, unfolding(crate::specs::Said::line_says))]
pub fn read_line(
    buffer: &mut LineBuffer,
    skips: u16,
    line: &[u8],
    ended: bool,
) -> Result<Said, Failing<Refusal>>
    requires { length line.now < 2 ^ 32 - 1 }
    ensures { Gives (λ said. said) result (line_says skips line.now ended) }
{
    let unclosed = read_signs(&mut buffer.signs, line, ended)?;
    let list = buffer.signs.as_slice();
    let head = behind_comments(list);
    let (switch, _) = front(head);
    let reading = read_head(buffer.alloc, head)?;
    judged(
        is_skipped(skips, switch),
        are_allowed(list),
        unclosed,
        reading,
    )
}
