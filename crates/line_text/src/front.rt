//! What a block of a tape may begin with: comments, a skip sign, a sequence number's literal, and
//! the first word of a statement. line.rt asks it what kind of block a line is. specs/Front defines
//! it.
ghost use Rattle.std.specs.Char.{is_ascii_digit};
ghost use Rattle.std.specs.Prelude.{◌≡◌, ◌≤◌, ◌||◌, ◌==◌, nat_eq, length, IfOk, IfSome};
ghost use Rattle.std.specs.List.{prefix_len, starts_with};
ghost use Rattle.line_text.specs.Pieces.{is_comment};
ghost use Rattle.line_text.specs.Front.{behind_comments, is_switch, switch_behind, behind_digit, switch_of, behind_switch, sentence_of, is_statement, is_number_sign};

use crate::sign::Sign;
use std::alloc::{AllocError, Global};

/// How many comments the signs begin with.
fn comments_len(signs: &[Sign]) -> usize
    ensures count { result ≡ prefix_len is_comment signs.now }
    ensures within { result ≤ length signs.now }
{
    signs.iter().take_while(|sign| sign.byte == b'(').count()
}

/// The signs from the first on that is no comment.
pub(crate) fn behind_comments(signs: &[Sign]) -> &[Sign]
    ensures { result.now ≡ behind_comments signs.now }
{
    let (_, rest) = signs.split_at(comments_len(signs));
    rest
}

/// Whether the byte is a digit from 1 to 9, which names one of nine switches after a skip sign.
fn is_switch(byte: u8) -> bool
    ensures { result ≡ is_switch byte }
{
    b'1' <= byte && byte <= b'9'
}

/// The switch of a skip sign by the signs after it, and what stands after the digit that names it:
/// without such a digit it is switch 1.
fn skip_sign(signs: &[Sign]) -> (u8, &[Sign])
    ensures switch { result.0 ≡ switch_behind signs.now }
    ensures rest { result.1.now ≡ behind_digit signs.now }
    ensures range { result.0 ≤ 9 }
{
    match signs {
        [] => (1, signs),
        [digit, rest @ ..] => {
            if is_switch(digit.byte) {
                (digit.byte - b'0', rest)
            } else {
                (1, signs)
            }
        }
    }
}

/// The switch of the skip sign, if the signs begin with one, and what stands after the sign and its
/// digit.
pub(crate) fn front(signs: &[Sign]) -> (Option<u8>, &[Sign])
    ensures switch { result.0 ≡ switch_of signs.now }
    ensures rest { result.1.now ≡ behind_switch signs.now }
    ensures range { IfSome result.0 (λ switch. switch ≤ 9) }
{
    match signs {
        [] => (None, signs),
        [first, rest @ ..] => {
            if first.byte == b'/' {
                let (switch, behind) = skip_sign(rest);
                (Some(switch), behind)
            } else {
                (None, signs)
            }
        }
    }
}

/// The text of the signs without comments.
pub(crate) fn sentence(alloc: Global, signs: &[Sign]) -> Result<Vec<u8>, AllocError>
    ensures { IfOk result (λ text. text.items ≡ sentence_of signs.now) }
{
    let mut text = Vec::with_capacity(alloc, signs.len())?;
    for sign in signs {
        if sign.byte != b'(' {
            text.push(sign.byte)?;
        }
    }
    Ok(text)
}

/// Whether the text of the signs, without comments, begins with a word.
fn begins_with(signs: &[Sign], word: &[u8]) -> bool
    ensures { result ≡ starts_with nat_eq (sentence_of signs.now) word.now }
{
    let mut rest = word;
    for sign in signs {
        let Some((first, others)) = rest.split_first() else {
            return true;
        };
        if sign.byte != b'(' {
            if *first != sign.byte {
                return false;
            }
            rest = others;
        }
    }
    rest.is_empty()
}

/// Whether the signs, without comments, begin as a statement does: with `#` or one of five words.
pub(crate) fn begins_statement(signs: &[Sign]) -> bool
    ensures { result ≡ is_statement (sentence_of signs.now) }
{
    begins_with(signs, b"#")
        || begins_with(signs, b"IF")
        || begins_with(signs, b"WHILE")
        || begins_with(signs, b"GOTO")
        || begins_with(signs, b"DO")
        || begins_with(signs, b"END")
}

/// Whether the byte is a digit, a point, a plus or a minus.
fn is_number_sign(byte: u8) -> bool
    ensures { result ≡ (is_ascii_digit byte || byte == 46 || byte == 43 || byte == 45) }
{
    byte.is_ascii_digit() || byte == b'.' || byte == b'+' || byte == b'-'
}

/// How many of the first signs could belong to a literal: digits, points, pluses and minuses.
pub(crate) fn number_len(signs: &[Sign]) -> usize
    ensures count { result ≡ prefix_len is_number_sign signs.now }
    ensures within { result ≤ length signs.now }
{
    signs
        .iter()
        .take_while(|sign| is_number_sign(sign.byte))
        .count()
}
