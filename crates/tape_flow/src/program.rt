//! The programs of a flow: a checked tape as a list of programs, each a list of blocks. What a block
//! says is in block_forms.
use block_forms::FlowBlock;
use nc_number::ListOf;

/// The blocks of a program, in the order of the text.
pub type FlowBlockList = ListOf<FlowBlock>;

/// A program of a tape.
#[derive(Drop)]
pub struct FlowProgram {
    /// The O number, 1 to 9,999.
    pub number: u16,
    /// The line of the O number, from 1.
    pub line: u32,
    /// Its blocks, with what they say.
    pub blocks: FlowBlockList,
}

/// The programs of a tape, in the order of the text. The first one is the main program.
pub type FlowProgramList = ListOf<FlowProgram>;
