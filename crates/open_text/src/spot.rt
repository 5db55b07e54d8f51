//! Where a byte of a tape stands in its line, and what a step over it comes to.

/// Where a byte stands in its line.
#[derive(Clone, Copy, Debug, PartialEq, Eq)]
pub enum Spot {
    /// At the start of the line.
    Start,
    /// At the head, before a skip sign that counts.
    Head,
    /// In a comment there.
    HeadNote,
    /// After a skip sign that does not count.
    Passed,
    /// Directly after the skip sign that counts.
    Sign,
    /// At the head, after the skip sign that counts.
    Kept,
    /// In a comment there.
    KeptNote,
    /// After a further skip sign.
    Extra,
    /// In the sequence number at the head of a block.
    Number,
    /// In a sequence number of six to eight digits, which is not read.
    LongNumber,
    /// Among words.
    Words,
    /// In a comment there.
    WordNote,
    /// In a sequence number after another word, which is not read.
    LostNumber,
    /// After a letter whose words may have an index.
    Letter,
    /// In the index of a word.
    Index,
    /// In a statement.
    Statement,
    /// In a block that writes something out.
    Output,
    /// After the O of a program whose name or number is not read.
    NameNumber,
    /// At the first byte of a name without an O.
    NameFirst,
    /// In the name of a program.
    Name,
    /// In an O number that is not read.
    LongName,
}

/// What stands for a byte, and where the next one stands.
#[derive(Clone, Copy, Debug, PartialEq, Eq)]
pub struct Step {
    /// What stands for the byte: itself, a blank or nothing.
    pub byte: Option<u8>,
    /// Where the next byte stands.
    pub spot: Spot,
}
