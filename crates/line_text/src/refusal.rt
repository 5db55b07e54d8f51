//! Why a tape can't be read, and the number of each refusal. This crate raises the first four, which
//! a line has by itself.
//!
//! A new variant needs its line in `cause` here and in `cause_of` (specs/Refusals), and in the
//! relation of tapes that the law of reading is about (`Holds`).
ghost use Rattle.std.specs.Prelude.{◌≡◌};
ghost use Rattle.line_text.specs.Refusals.{cause_of, refusal_number};

use nc_number::Cause;

/// Why a tape can't be read: the refusals of a tape's text, each with a row in nc_number's `Cause`.
#[derive(Clone, Copy, Debug, PartialEq, Eq)]
pub enum Refusal {
    /// In a block that is not skipped, a sequence number or an O number of more than 8 whole
    /// digits, zeros in front not counted, or of more than 6 after the point.
    TooManyDigits,
    /// A byte outside comments that no line of the programs may have there.
    BadCharacter,
    /// A letter without a whole value, something that begins no word, or an O word with another
    /// word or a sequence number beside it, or with a skip sign before it.
    NoNumber,
    /// A line that ends inside a comment.
    OpenComment,
    /// A block stands before the first O number, or the tape has no O number.
    NoProgramNumber,
    /// There is no second `%` line.
    NoEnd,
    /// A line of the programs, or one of the two `%` lines, has more than 512 bytes, its line feed
    /// not counted.
    LineTooLong,
    /// More than 20,000 blocks.
    TooManyBlocks,
    /// More than 4,194,304 bytes.
    TapeTooLong,
    /// A sequence number or an O number out of its range.
    WordRange,
}

impl Refusal {
    /// The row of this refusal in nc_number's table of causes.
    fn cause(self) -> Cause
        ensures { result ≡ cause_of self }
    {
        match self {
            Refusal::TooManyDigits => Cause::TooManyDigits,
            Refusal::BadCharacter => Cause::BadCharacter,
            Refusal::NoNumber => Cause::NoNumber,
            Refusal::OpenComment => Cause::OpenComment,
            Refusal::NoProgramNumber => Cause::NoProgramNumber,
            Refusal::NoEnd => Cause::NoEnd,
            Refusal::LineTooLong => Cause::LineTooLong,
            Refusal::TooManyBlocks => Cause::TooManyBlocks,
            Refusal::TapeTooLong => Cause::TapeTooLong,
            Refusal::WordRange => Cause::WordRange,
        }
    }

    /// The number under which the refusal is printed. Of several on one line that with the least
    /// number is answered.
    pub fn number(self) -> u8
        ensures { result ≡ refusal_number self }
    {
        self.cause().number()
    }
}
