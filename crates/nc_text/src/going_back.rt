//! Going back in the reading of a tape if memory runs out in a piece of its text: so a piece is
//! taken whole or not at all. A mark is the moment of the reading to which it goes back. feed.rt
//! calls both functions. The mark itself is in mark.rt; each of its fields needs its line here and
//! in specs/Mark.
ghost use Rattle.std.specs.Prelude.{◌≡◌, ◌++◌, List, Some, length};
ghost use Rattle.std.specs.Option.{option_to_list};
ghost use Rattle.nc_text.specs.declared.tape.Program.{Program};
ghost use Rattle.nc_text.specs.Tape.{Before};
ghost use Rattle.nc_text.specs.View.{before_of};
ghost use Rattle.nc_text.specs.ReadShape.{IsShaped};
ghost use Rattle.nc_text.specs.Mark.{IsMarkOf, Follows, StoodAt, block_count, first_of, first_blocks, cut_program};

use crate::mark::Mark;
use crate::progress::Progress;
use crate::tape::{BlockList, Program};

impl Progress {
    /// A mark of what was read so far.
    pub(crate) fn mark(&self) -> Mark
        ensures mark { IsMarkOf result (before_of self.now) }
        ensures shaped { IsShaped (before_of self.now) }
    {
        Mark {
            lines: self.lines,
            bytes: self.bytes,
            percent: self.percent,
            blocks: self.blocks,
            done: self.done.len(),
            current: block_count(&self.current),
        }
    }

    /// Goes back to what was read at the mark, if that still stands. It takes no memory.
    pub(crate) fn cut_back(&mut self, mark: &Mark)
        requires { StoodAt mark.now (before_of self.old) }
        ensures { (start : Before) → IsMarkOf mark.now start → Follows start (before_of self.old)
            → before_of self.new ≡ start }
    {
        reopen(&mut self.done, &mut self.current, mark.done);
        cut_program(&mut self.current, mark.current);
        self.lines = mark.lines;
        self.bytes = mark.bytes;
        self.percent = mark.percent;
        self.blocks = mark.blocks;
    }
}

/// How many blocks the program that is being read has, or none if no program is being read.
fn block_count(program: &Option<Program>) -> Option<usize>
    ensures { result ≡ block_count program.now }
{
    match program {
        None => None,
        Some(program) => Some(program.blocks.as_slice().len()),
    }
}

/// Leaves the first `count` programs done, and makes the next one the current one again, if there
/// is one.
fn reopen(done: &mut Vec<Program>, current: &mut Option<Program>, count: usize)
    ensures { (stood : List Program) (since : List Program) → length stood ≡ count → done.old.items ≡ stood ++ since →
        (done.new.items ≡ stood) × (current.new ≡ first_of (since ++ option_to_list current.old)) }
{
    if done.len() > count {
        done.truncate(count + 1);
        *current = done.pop();
    }
}

/// The program with its first `count` blocks alone.
fn with_first_blocks(program: Program, count: usize) -> Program
    ensures { Some result ≡ first_blocks count (Some program) }
{
    let Program {
        number,
        line,
        blocks,
    } = program;
    let mut blocks = blocks.into_vec();
    blocks.truncate(count);
    Program {
        number,
        line,
        blocks: BlockList::of(blocks),
    }
}

/// Leaves the current program with this many of its first blocks; with `None`, leaves no program.
fn cut_program(program: &mut Option<Program>, blocks: Option<usize>)
    ensures { program.new ≡ cut_program blocks program.old }
{
    match blocks {
        None => *program = None,
        Some(count) => {
            if let Some(cut) = program.take() {
                *program = Some(with_first_blocks(cut, count));
            }
        }
    }
}
