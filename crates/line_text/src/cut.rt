//! The words that the signs of a line of a tape are cut into: each letter outside square brackets
//! begins one. line.rt cuts a block with it, values.rt counts brackets with it; words.rt checks
//! what is cut. specs/Pieces defines it.
ghost use Rattle.std.specs.Prelude.{◌≡◌, ◌+◌, ◌-◌, ◌^◌, ◌<◌, ◌≤◌, [], length, IfOk};
ghost use Rattle.std.specs.List.{list_all, position_or_len};
ghost use Rattle.line_text.specs.Pieces.{is_comment, depth_behind, begins_word, bytes_of, end_of, piece_of, pieces_of, value_len};
ghost use Rattle.line_text.specs.Places.{ArePlaced};
ghost use Rattle.line_text.specs.Said.{AreShort};

use crate::piece::Piece;
use crate::sign::Sign;
use nc_number::ByteList;
use std::alloc::{AllocError, Global};

/// How many square brackets are open after a byte, if `depth` were open before it. A `]` that
/// closes nothing leaves 0.
pub(crate) fn depth_behind(depth: usize, byte: u8) -> usize
    requires { depth < 2 ^ 63 }
    ensures value { result ≡ depth_behind depth byte }
    ensures near { result ≤ depth + 1 }
{
    if byte == b'[' {
        depth + 1
    } else if byte == b']' {
        depth.saturating_sub(1)
    } else {
        depth
    }
}

/// Whether the byte begins a word: a letter does, but not inside square brackets, where it belongs
/// to the name of a function.
fn begins_word(depth: usize, byte: u8) -> bool
    ensures { result ≡ begins_word depth byte }
{
    depth == 0 && byte.is_ascii_uppercase()
}

/// How many signs stand before the next letter outside brackets.
pub(crate) fn value_len(signs: &[Sign]) -> usize
    requires { length signs.now < 2 ^ 32 }
    ensures count { result ≡ value_len signs.now 0 }
    ensures within { result ≤ length signs.now }
{
    let mut depth = 0usize;
    let mut at = 0usize;
    for sign in signs {
        if begins_word(depth, sign.byte) {
            return at;
        }
        depth = depth_behind(depth, sign.byte);
        at += 1;
    }
    at
}

/// How many signs stand before the first comment.
fn part_len(value: &[Sign]) -> usize
    ensures count { result ≡ position_or_len is_comment value.now }
    ensures within { result ≤ length value.now }
{
    value.iter().take_while(|sign| sign.byte != b'(').count()
}

/// Whether all signs are comments; each counts as one sign, whatever it holds.
fn are_comments(signs: &[Sign]) -> bool
    ensures { result ≡ list_all is_comment signs.now }
{
    signs.iter().all(|sign| sign.byte == b'(')
}

/// The bytes of the signs, without their places.
pub(crate) fn bytes(alloc: Global, signs: &[Sign]) -> Result<Vec<u8>, AllocError>
    ensures { IfOk result (λ bytes. bytes.items ≡ bytes_of signs.now) }
{
    let mut bytes = Vec::with_capacity(alloc, signs.len())?;
    for sign in signs {
        bytes.push(sign.byte)?;
    }
    Ok(bytes)
}

/// The place after the last sign, or `start` if there is no sign.
fn end_of(start: u32, signs: &[Sign]) -> u32
    requires { ArePlaced signs.now }
    ensures { result ≡ end_of start signs.now }
{
    match signs {
        [] => start,
        [.., last] => last.place + 1,
    }
}

/// A letter and what stands after it, as a word.
fn piece(alloc: Global, letter: Sign, value: &[Sign]) -> Result<Piece, AllocError>
    requires letter { letter.place + 1 < 2 ^ 32 }
    requires placed { ArePlaced value.now }
    requires short { length value.now < 2 ^ 32 }
    ensures value { IfOk result (λ piece. piece ≡ piece_of (record { letter = letter; value = value.now })) }
    ensures short { IfOk result (λ piece. length piece.text < 2 ^ 32) }
{
    let (part, rest) = value.split_at(part_len(value));
    Ok(Piece {
        letter: letter.byte,
        start: letter.place + 1,
        end: end_of(letter.place + 1, part),
        text: ByteList::of(bytes(alloc, part)?),
        whole: are_comments(rest),
    })
}

/// The words that signs are cut into, not yet checked. No sign may stand before the first word
/// (`lead`).
pub(crate) fn pieces(alloc: Global, signs: &[Sign]) -> Result<Vec<Piece>, AllocError>
    requires short { length signs.now < 2 ^ 32 }
    requires placed { ArePlaced signs.now }
    requires lead { value_len signs.now 0 ≡ 0 }
    ensures value { IfOk result (λ pieces. pieces.items ≡ pieces_of signs.now) }
    ensures short { IfOk result (λ pieces. AreShort pieces.items) }
{
    let mut pieces = Vec::new(alloc);
    let mut rest = signs;
    while let Some((letter, others)) = rest.split_first() {
        let (value, behind) = others.split_at(value_len(others));
        pieces.push(piece(alloc, *letter, value)?)?;
        rest = behind;
    }
    Ok(pieces)
}
