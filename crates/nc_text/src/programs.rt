//! The programs of a tape while they are read: one more begins, or the last one gets a block.
//! The only error is that memory runs out, and then all programs are as before.
//! progress.rt calls it at an O number and at a block.
ghost use Rattle.std.specs.Prelude.{◌≡◌, ◌++◌, Some, OnOk, OnErr};
ghost use Rattle.std.specs.Option.{option_to_list};
ghost use Rattle.nc_text.specs.Tape.{program_at, block_at, with_block};

use crate::tape::{Block, BlockList, Program};
use line_text::SaidBlock;
use std::alloc::{AllocError, Global};

/// Begins a program: the one that is being read, if any, is done.
pub(crate) fn begin_program(
    alloc: Global,
    done: &mut Vec<Program>,
    current: &mut Option<Program>,
    line: u32,
    number: u32,
) -> Result<(), AllocError>
    ensures done { OnOk result (done.new.items ≡ done.old.items ++ option_to_list current.old) }
    ensures current { OnOk result (current.new ≡ Some (program_at line number)) }
    ensures as_before { OnErr result ((done.new.items ≡ done.old.items) × (current.new ≡ current.old)) }
{
    if let Some(program) = current.take() {
        if let Err(failed) = done.push(program) {
            *current = Some(failed.value);
            return Err(AllocError);
        }
    }
    *current = Some(Program {
        number,
        line,
        blocks: BlockList::of(Vec::new(alloc)),
    });
    Ok(())
}

/// Adds a block to the program that is being read, if there is one.
pub(crate) fn add_block(
    current: &mut Option<Program>,
    line: u32,
    block: SaidBlock,
) -> Result<(), AllocError>
    ensures ok { OnOk result (current.new ≡ with_block (block_at line block) current.old) }
    ensures as_before { OnErr result (current.new ≡ current.old) }
{
    let SaidBlock {
        sequence,
        in_range: _,
        body,
    } = block;
    if let Some(program) = current.take() {
        let Program {
            number,
            line: begun,
            blocks,
        } = program;
        let mut blocks = blocks.into_vec();
        let added = blocks.push(Block {
            line,
            sequence,
            body,
        });
        *current = Some(Program {
            number,
            line: begun,
            blocks: BlockList::of(blocks),
        });
        added?;
    }
    Ok(())
}
