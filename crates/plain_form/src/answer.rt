//! What a form answers.
use crate::cause::PlainFault;
use nc_number::ListOf;
use nc_text::BlockList;

/// What stands for one line of the tape.
#[derive(Debug, Drop)]
pub struct WrittenLine {
    /// Plain blocks, in their order; none if the line goes. Of a block only the words count
    /// (`plain_line` makes one): the line's sequence number goes to the first, its line to all.
    pub blocks: BlockList,
}

/// What stands for the lines of blocks, one after the other.
pub type WrittenLineList = ListOf<WrittenLine>;

/// What a form answers about a block.
#[derive(Debug, Drop)]
pub enum FormAnswer {
    /// The block is no beginning of this form.
    NotMine,
    /// It is one, and can't be written out.
    Refused(PlainFault),
    /// What stands for this block and for those behind it, as many as the list is long.
    Written(WrittenLineList),
}
