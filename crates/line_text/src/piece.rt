//! A letter of a tape's line with what may be its value: a word before it is checked. cut.rt makes
//! pieces of signs, words.rt makes words of pieces. Laws of the crates above speak of them too.
use nc_number::ByteList;

/// A letter and what may be its value, which ends before the first comment.
#[derive(Debug, Drop)]
pub struct Piece {
    /// The letter, in upper case.
    pub letter: u8,
    /// The place after the letter; places count bytes of the line from 0.
    pub start: u32,
    /// The place after the value's last byte; without a value that after the letter.
    pub end: u32,
    /// The value, without ignored bytes and in upper case; nothing is checked yet.
    pub text: ByteList,
    /// Whether nothing but comments stands between the value and the next letter.
    pub whole: bool,
}
