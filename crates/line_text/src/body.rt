//! What stands in a block of a tape: words or a statement. What a word means is not known here.
use nc_number::{ByteList, ListOf};

/// An address letter and its value.
#[derive(Debug, Drop)]
pub struct Word {
    /// The letter, in upper case.
    pub letter: u8,
    /// The place directly after the letter; places count bytes of the line from 0.
    pub start: u32,
    /// The place after the value's last byte.
    pub end: u32,
    /// The value, whole: a literal, or a variable or a bracketed expression with a sign or without;
    /// without ignored bytes and in upper case.
    pub text: ByteList,
}

/// The words of a block, in the order of the text.
pub type WordList = ListOf<Word>;

/// What a block says.
#[derive(Debug, Drop)]
pub enum Body {
    /// The words without sequence numbers: none if the block has nothing else but a skip sign.
    Words(WordList),
    /// A text that begins as an assignment, a jump or a loop does, without skip sign, N, blanks and
    /// comments, in upper case. What follows is not yet checked: macro_expr and open_forms read it.
    Statement(ByteList),
}
