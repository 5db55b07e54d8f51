//! A tape: its programs and their blocks, as a reader answers them.
ghost use Rattle.std.specs.Prelude.{◌≡◌};

use line_text::Body;
use nc_number::ListOf;
use std::marker::Model;

/// A block of a program.
#[derive(Debug, Drop)]
pub struct Block {
    /// The number of its line, from 1.
    pub line: u32,
    /// Its sequence number, 0 to 99,999: that of its last N with a literal. A block may have none.
    pub sequence: Option<u32>,
    /// Its words, or its statement.
    pub body: Body,
}

/// The blocks of a program, in the order of the text.
pub type BlockList = ListOf<Block>;

/// A program: the blocks after an O number, up to the next one.
#[derive(Debug, Drop)]
pub struct Program {
    /// The O number, 1 to 9,999.
    pub number: u32,
    /// The line of the O number, from 1.
    pub line: u32,
    /// Its blocks, in the order of the text.
    pub blocks: BlockList,
}

/// A tape as its programs. The first one is the main program.
///
/// Every tape has the shape `IsTapeShape`: at least one program, numbers from 1 to 9,999, lines
/// that rise from the first O number to the last block, at most 20,000 blocks, and in each block
/// words with a letter and a whole value, or a statement.
#[derive(Debug, Drop)]
pub struct Tape {
    programs: Vec<Program>,
}

impl Model for Tape {
    ghost use Rattle.std.specs.Prelude.{List};
    ghost use Rattle.nc_text.specs.declared.tape.Program.{Program};

    ghost Value = { List Program };

    ghost view = { λ t. t.programs.items };

    ghost use Rattle.nc_text.specs.Shape.{IsTapeShape};

    ghost invariant = { λ t. IsTapeShape t.programs.items };
}

impl Tape {
    ghost use Rattle.nc_text.specs.Shape.{IsTapeShape};

    /// A tape of these programs. Only a reader makes one, so nobody asks for its shape again.
    pub(crate) fn of(programs: Vec<Program>) -> Self
        requires { IsTapeShape programs.items }
        ensures { result ≡ programs.items }
    {
        Tape { programs }
    }

    /// The programs, in the order of the text.
    pub fn as_slice(&self) -> &[Program]
        ensures value { result.now ≡ self.now }
        ensures shape { IsTapeShape self.now }
    {
        self.programs.as_slice()
    }
}
