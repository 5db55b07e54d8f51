//! Where the blocks of a program stand in its order: what each does, and whether a path may be led
//! to its number.
ghost use Rattle.std.specs.Prelude.{◌≡◌, ◌||◌, ℕ, List, map, IfOk};
ghost use Rattle.known_blocks.specs.Entries.{is_among, some_jump, some_return_in};
ghost use Rattle.block_order.specs.declared.program.ControlBlock.{ControlBlock};
ghost use Rattle.block_order.specs.declared.program.ControlProgram.{ControlProgram};
ghost use Rattle.plain_blocks.specs.Targets.{is_led_to, stand_of, stands_of, AreNoted};

use block_order::{Control, ControlBlock};
use known_blocks::Aims;
use nc_number::NoMemory;
use std::alloc::Global;

/// A block in the order of its program.
#[derive(Clone, Copy, Debug, PartialEq, Eq)]
pub struct Stand {
    /// Its line, from 1.
    pub line: u32,
    /// Its sequence number.
    pub sequence: Option<u32>,
    /// What it does to the order.
    pub control: Control,
    /// Whether a path may be led to its number by a jump or by an M99.
    pub target: bool,
}

/// Whether a path may be led to the number of a block, if it has one.
fn is_led_to(jumps: &Aims, returns: &Aims, sequence: Option<u32>) -> bool
    ensures { (tape : List ControlProgram) (own : List ControlBlock) → AreNoted tape own jumps.now returns.now
        → result ≡ is_led_to tape own sequence }
{
    match sequence {
        Some(number) => jumps.has(number) || returns.has(number),
        None => false,
    }
}

/// A block in the order of its program.
fn stand_of(jumps: &Aims, returns: &Aims, block: &ControlBlock) -> Stand
    ensures { (tape : List ControlProgram) (own : List ControlBlock) → AreNoted tape own jumps.now returns.now
        → result ≡ stand_of tape own block.now }
{
    Stand {
        line: block.line,
        sequence: block.sequence,
        control: block.control,
        target: is_led_to(jumps, returns, block.sequence),
    }
}

/// The blocks in the order of their program; to their numbers jumps lead, and returns of the tape.
fn stands_by(
    alloc: Global,
    jumps: &Aims,
    returns: &Aims,
    own: &[ControlBlock],
) -> Result<Vec<Stand>, NoMemory>
    ensures { IfOk result (λ stands. (tape : List ControlProgram) (all : List ControlBlock) → AreNoted tape all jumps.now returns.now
        → stands.items ≡ map (stand_of tape all) own.now) }
{
    let mut stands = Vec::with_capacity(alloc, own.len())?;
    for block in own {
        stands.push(stand_of(jumps, returns, block))?;
    }
    Ok(stands)
}

/// The blocks of a program in its order; `returns` are the numbers of the tape's M99.
pub(crate) fn stands_of(
    alloc: Global,
    returns: &Aims,
    own: &[ControlBlock],
) -> Result<Vec<Stand>, NoMemory>
    ensures { IfOk result (λ stands. (tape : List ControlProgram)
        → ((n : ℕ) → is_among returns.now n ≡ some_return_in tape n) → stands.items ≡ stands_of tape own.now) }
{
    let jumps = Aims::of_jumps(alloc, own)?;
    let stands = stands_by(alloc, &jumps, returns, own)?;
    Ok(stands)
}
