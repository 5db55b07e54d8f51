//! A block of words of a tape: its sequence number, its words, or the O number that it is. line.rt
//! calls `read_pieces` for each block that is no statement and has nothing before its first letter.
//! The ranges of both numbers stand in specs/Said and specs/LineShape too, that of N in line.rt.
ghost use Rattle.std.specs.Prelude.{◌≡◌, ◌^◌, ◌<◌, ◌≤◌, None, ◌+◌, length, take, if◌then◌else◌, IfOk, IsTrue};
ghost use Rattle.std.specs.List.{list_all, list_any, prefix_len};
ghost use Rattle.nc_number.specs.declared.limits.TheConstants.{LAST_SEQUENCE};
ghost use Rattle.line_text.specs.Values.{number_in};
ghost use Rattle.line_text.specs.Said.{AreShort, is_sequence, is_sound, is_long, has_program_letter, stands_alone, sequence_from, is_in_range, word_of, words_of, is_program, program_number, said_by, read_pieces};

use crate::body::{Body, Word, WordList};
use crate::piece::Piece;
use crate::said::{Reading, Said, SaidBlock};
use crate::values::{has_long_front, is_value, number_in};
use nc_number::{LAST_SEQUENCE, is_literal};
use std::alloc::{AllocError, Global};

/// Whether the piece is the block's sequence number: an N with a literal.
fn is_sequence(piece: &Piece) -> bool
    ensures { result ≡ is_sequence piece.now }
{
    piece.letter == b'N' && is_literal(piece.text.as_slice())
}

/// Whether the piece is a letter with a whole value.
fn is_sound(piece: &Piece) -> bool
    requires { length piece.now.text < 2 ^ 32 }
    ensures { result ≡ is_sound piece.now }
{
    piece.whole && is_value(piece.text.as_slice())
}

/// Whether the piece is an N or an O whose value begins with a literal of too many digits; what
/// follows the literal is not asked.
fn is_long(piece: &Piece) -> bool
    ensures { result ≡ is_long piece.now }
{
    (piece.letter == b'N' || piece.letter == b'O') && has_long_front(piece.text.as_slice())
}

/// How many pieces stand before the first letter without a whole value.
fn sound_len(pieces: &[Piece]) -> usize
    requires { AreShort pieces.now }
    ensures count { result ≡ prefix_len is_sound pieces.now }
    ensures within { result ≤ length pieces.now }
{
    pieces.iter().take_while(|piece| is_sound(piece)).count()
}

/// Whether one of the pieces is an N or O number with too many digits.
fn any_long(pieces: &[Piece]) -> bool
    ensures { result ≡ list_any is_long pieces.now }
{
    pieces.iter().any(|piece| is_long(piece))
}

/// Whether an O stands among the words, with whatever value.
fn has_program_letter(pieces: &[Piece]) -> bool
    ensures { result ≡ has_program_letter pieces.now }
{
    pieces.iter().any(|piece| piece.letter == b'O')
}

/// Whether nothing but comments stands beside an O word, and no skip sign before it. True if there
/// is no O word.
fn stands_alone(slash: bool, pieces: &[Piece]) -> bool
    ensures { result ≡ stands_alone slash pieces.now }
{
    !has_program_letter(pieces) || (!slash && pieces.len() == 1)
}

/// The sequence number after one more piece: a later one replaces an earlier one.
fn sequence_number(piece: &Piece, before: Option<u32>) -> Option<u32>
    ensures { result ≡ (if is_sequence piece.now then number_in 0 LAST_SEQUENCE piece.now.text else before) }
{
    if is_sequence(piece) {
        number_in(0, LAST_SEQUENCE, piece.text.as_slice())
    } else {
        before
    }
}

/// The last sequence number of a block: none if it has none, or if the last is out of its range.
fn sequence(pieces: &[Piece]) -> Option<u32>
    ensures { result ≡ sequence_from None pieces.now }
{
    let mut number = None;
    for piece in pieces {
        number = sequence_number(piece, number);
    }
    number
}

/// Whether a sequence number is a whole number from 0 to 99,999; any other word is in range here.
fn is_in_range(piece: &Piece) -> bool
    ensures { result ≡ is_in_range piece.now }
{
    !is_sequence(piece) || number_in(0, LAST_SEQUENCE, piece.text.as_slice()).is_some()
}

/// Whether every sequence number is in its range, though only the last one stays.
fn are_in_range(pieces: &[Piece]) -> bool
    ensures { result ≡ list_all is_in_range pieces.now }
{
    pieces.iter().all(|piece| is_in_range(piece))
}

/// A piece as a word, without the note whether it was found whole.
fn into_word(piece: Piece) -> Word
    ensures { result ≡ word_of piece }
{
    let Piece {
        letter,
        start,
        end,
        text,
        whole: _,
    } = piece;
    Word {
        letter,
        start,
        end,
        text,
    }
}

/// The words of a block, without its sequence numbers.
fn words(alloc: Global, pieces: Vec<Piece>) -> Result<Vec<Word>, AllocError>
    ensures { IfOk result (λ words. words.items ≡ words_of pieces.items) }
{
    let mut words = Vec::with_capacity(alloc, pieces.len())?;
    for piece in pieces {
        if !is_sequence(&piece) {
            words.push(into_word(piece))?;
        }
    }
    Ok(words)
}

/// Whether the words are an O number alone in its block, without a skip sign.
fn is_program(slash: bool, pieces: &[Piece]) -> bool
    ensures { result ≡ is_program slash pieces.now }
{
    match pieces {
        [] => false,
        [piece, others @ ..] => {
            !slash && others.is_empty() && piece.letter == b'O' && is_literal(piece.text.as_slice())
        }
    }
}

/// The O number of a block that is one: from 1 to 9,999, or none if it is out of that range.
fn program_number(slash: bool, pieces: &[Piece]) -> Option<u32>
    requires { IsTrue (is_program slash pieces.now) }
    ensures { result ≡ program_number pieces.now }
{
    match pieces {
        [] => None,
        [piece, ..] => number_in(1, 9_999, piece.text.as_slice()),
    }
}

/// What the pieces of a block say: an O number if they are one, else a block of words. The pieces
/// need not be sound; `read_pieces` says whether they are.
fn said_by(alloc: Global, slash: bool, pieces: Vec<Piece>) -> Result<Said, AllocError>
    ensures { IfOk result (λ said. said ≡ said_by slash pieces.items) }
{
    if is_program(slash, pieces.as_slice()) {
        return Ok(Said::Program(program_number(slash, pieces.as_slice())));
    }
    let sequence = sequence(pieces.as_slice());
    let in_range = are_in_range(pieces.as_slice());
    let words = words(alloc, pieces)?;
    Ok(Said::Block(SaidBlock {
        sequence,
        in_range,
        body: Body::Words(WordList::of(words)),
    }))
}

/// The first `count` pieces and the one after them, if there is one.
fn front_of(pieces: &[Piece], count: usize) -> &[Piece]
    requires { count ≤ length pieces.now }
    ensures { result.now ≡ take (count + 1) pieces.now }
{
    if count == pieces.len() {
        return pieces;
    }
    let (front, _) = pieces.split_at(count + 1);
    front
}

/// Reads the words of a block; `slash` says whether it has a skip sign. The first piece that is not
/// sound breaks the block, and too many digits count only up to that piece.
pub(crate) fn read_pieces(
    alloc: Global,
    slash: bool,
    pieces: Vec<Piece>,
) -> Result<Reading, AllocError>
    requires { AreShort pieces.items }
    ensures { IfOk result (λ reading. reading ≡ read_pieces slash pieces.items) }
{
    let sound = sound_len(pieces.as_slice());
    let long = any_long(front_of(pieces.as_slice(), sound));
    let broken = sound < pieces.len() || !stands_alone(slash, pieces.as_slice());
    let said = said_by(alloc, slash, pieces)?;
    Ok(Reading { long, broken, said })
}
