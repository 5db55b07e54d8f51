//! The sequence numbers to which a path may be led, noted once for a program or a tape. entries.rt
//! asks for those of its blocks.
ghost use Rattle.std.specs.Prelude.{◌≡◌, ◌||◌, ℕ, nat_eq, IfOk, OnOk};
ghost use Rattle.std.specs.HashSet.{contains};
ghost use Rattle.known_blocks.specs.Entries.{aims_at, returns_to, some_jump, some_return, some_return_in, is_among};

use block_order::{Control, ControlBlock, ControlProgram};
use indexmap::IndexSet;
use nc_number::NoMemory;
use std::alloc::Global;

/// Sequence numbers to which a path may be led.
#[derive(Drop)]
pub enum Aims {
    /// Every number: one of the jumps is calculated.
    Every,
    /// These.
    These(IndexSet<u32>),
}

/// Notes the number of a GOTO, if the control is one.
fn note_jump(aims: &mut Aims, control: &Control) -> Result<(), NoMemory>
    ensures { OnOk result ((n : ℕ) → is_among aims.new n ≡ (is_among aims.old n || aims_at n control.now)) }
{
    match control {
        Control::Goto(None) => *aims = Aims::Every,
        Control::Goto(Some(number)) => {
            if let Aims::These(numbers) = aims {
                numbers.insert(*number)?;
            }
        }
        _ => {}
    }
    Ok(())
}

/// Notes the number of an M99, if the control is one with a number.
fn note_return(numbers: &mut IndexSet<u32>, control: &Control) -> Result<(), NoMemory>
    ensures { OnOk result ((n : ℕ) → contains nat_eq numbers.new n
        ≡ (contains nat_eq numbers.old n || returns_to n control.now)) }
{
    if let Control::BackTo(number) = control {
        numbers.insert(*number)?;
    }
    Ok(())
}

/// Notes the numbers of the M99 of these blocks.
fn note_returns(numbers: &mut IndexSet<u32>, blocks: &[ControlBlock]) -> Result<(), NoMemory>
    ensures { OnOk result ((n : ℕ) → contains nat_eq numbers.new n
        ≡ (contains nat_eq numbers.old n || some_return blocks.now n)) }
{
    for block in blocks {
        note_return(numbers, &block.control)?;
    }
    Ok(())
}

/// The numbers of the M99 of these programs.
fn return_numbers(alloc: Global, tape: &[ControlProgram]) -> Result<IndexSet<u32>, NoMemory>
    ensures { IfOk result (λ numbers. (n : ℕ) → contains nat_eq numbers n ≡ some_return_in tape.now n) }
{
    let mut numbers = IndexSet::new(alloc);
    for program in tape {
        note_returns(&mut numbers, program.blocks.as_slice())?;
    }
    Ok(numbers)
}

impl Aims {
    /// The numbers to which the GOTO of these blocks may lead. The only error is out of memory.
    pub fn of_jumps(alloc: Global, blocks: &[ControlBlock]) -> Result<Aims, NoMemory>
        ensures { IfOk result (λ aims. (n : ℕ) → is_among aims n ≡ some_jump blocks.now n) }
    {
        let mut aims = Aims::These(IndexSet::new(alloc));
        for block in blocks {
            note_jump(&mut aims, &block.control)?;
        }
        Ok(aims)
    }

    /// The numbers to which an M99 of the tape may lead, in whatever program. The only error is out
    /// of memory.
    pub fn of_returns(alloc: Global, tape: &[ControlProgram]) -> Result<Aims, NoMemory>
        ensures { IfOk result (λ aims. (n : ℕ) → is_among aims n ≡ some_return_in tape.now n) }
    {
        let numbers = return_numbers(alloc, tape)?;
        Ok(Aims::These(numbers))
    }

    /// Whether the number is among them.
    pub fn has(&self, number: u32) -> bool
        ensures { result ≡ is_among self.now number }
    {
        match self {
            Aims::Every => true,
            Aims::These(numbers) => numbers.contains(&number),
        }
    }
}
