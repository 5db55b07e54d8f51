//! Which programs are loud: they reach a wait or an end, themselves or by their calls. The meaning
//! is in specs/Loud.antt. DraftOrder and BlockOrder keep it.
ghost use Rattle.std.specs.Prelude.{◌≡◌, [], true, map, IfOk};
ghost use Rattle.block_order.specs.Loud.{is_loud_block, has_loud_block, known_loud, loud};
ghost use Rattle.block_order.specs.Order.{blocks};
ghost use Rattle.block_order.specs.ProgramPlaces.{is_flagged};
ghost use Rattle.block_order.specs.Numbers.{place_known, KnowsPlaces};
ghost use Rattle.block_order.specs.Heard.{is_kept_loud, flag_known, AreOnlyLoud};

use crate::callers::Callers;
use crate::control::Control;
use crate::numbers::ProgramNumbers;
use crate::program::{ControlBlock, ControlProgram};
use nc_number::NoMemory;
use std::alloc::{AllocError, Global};

/// Which programs of a tape are loud: have a wait or an end, or call a loud one.
#[derive(Drop)]
pub struct LoudPrograms {
    /// The place of each program.
    numbers: ProgramNumbers,
    /// At the place of each program whether it is loud.
    flags: Vec<bool>,
}

/// The flag, at its place, of the program with this O number.
fn flag_of(numbers: &ProgramNumbers, flags: &[bool], number: u16) -> bool
    ensures { result ≡ flag_known numbers.now flags.now number }
{
    match numbers.place_of(number) {
        Some(place) => flags.get(place).copied().unwrap_or(false),
        None => false,
    }
}

/// Whether a block of this control is loud, by what is known so far.
fn is_loud_control(numbers: &ProgramNumbers, flags: &[bool], control: &Control) -> bool
    ensures { result ≡ is_loud_block (flag_known numbers.now flags.now) control.now }
{
    match control {
        Control::Wait(_) | Control::End => true,
        Control::Call {
            program,
            repeats: _,
        } => flag_of(numbers, flags, *program),
        _ => false,
    }
}

/// Whether one of the blocks is loud, by what is known so far.
fn any_is_loud(numbers: &ProgramNumbers, flags: &[bool], blocks: &[ControlBlock]) -> bool
    ensures { result ≡ has_loud_block (flag_known numbers.now flags.now) blocks.now }
{
    for block in blocks {
        if is_loud_control(numbers, flags, &block.control) {
            return true;
        }
    }
    false
}

/// The flags after one more look at each program, by what is known so far.
fn look_again(
    alloc: Global,
    numbers: &ProgramNumbers,
    flags: &[bool],
    programs: &[ControlProgram],
) -> Result<Vec<bool>, AllocError>
    ensures { IfOk result (λ next. next.items
        ≡ map (λ p. has_loud_block (flag_known numbers.now flags.now) p.blocks) programs.now) }
{
    programs
        .iter()
        .map(|program| any_is_loud(numbers, flags, program.blocks.as_slice()))
        .collect(alloc)
}

/// What is known before any look: no program is loud.
fn none_loud(alloc: Global, programs: &[ControlProgram]) -> Result<Vec<bool>, AllocError>
    ensures { IfOk result (λ flags. flags.items
        ≡ map (λ p. has_loud_block (known_loud programs.now 0) []) programs.now) }
{
    programs.iter().map(|_| false).collect(alloc)
}

/// Whether both lists flag the same programs.
fn are_same(these: &[bool], those: &[bool]) -> bool
    ensures { result ≡ true → these.now ≡ those.now }
{
    these == those
}

/// Flags the program of this number if one of its blocks is loud, by what is known so far. The
/// answer is whether it is flagged only now.
fn hear(
    programs: &[ControlProgram],
    numbers: &ProgramNumbers,
    flags: &mut [bool],
    number: u16,
) -> bool
    requires known { KnowsPlaces programs.now numbers.now }
    requires sound { AreOnlyLoud programs.now flags.old }
    ensures sound { AreOnlyLoud programs.now flags.new }
{
    if flag_of(numbers, flags, number)
        || !any_is_loud(numbers, flags, numbers.blocks_of(programs, number))
    {
        return false;
    }
    match numbers.place_of(number) {
        Some(place) if place < flags.len() => {
            flags[place] = true;
            true
        }
        _ => false,
    }
}

/// Flags those of these programs that have a loud block, by what is known so far. The numbers of
/// those that are flagged only now are put behind the others in `fresh`.
fn hear_each(
    programs: &[ControlProgram],
    numbers: &ProgramNumbers,
    flags: &mut [bool],
    these: &[u16],
    fresh: &mut Vec<u16>,
) -> Result<(), NoMemory>
    requires known { KnowsPlaces programs.now numbers.now }
    requires sound { AreOnlyLoud programs.now flags.old }
    ensures sound { AreOnlyLoud programs.now flags.new }
{
    for number in these {
        if hear(programs, numbers, flags, *number) {
            fresh.push(*number)?;
        }
    }
    Ok(())
}

/// Flags loud programs: first by one look at each program, then by a look at the callers of each
/// one that was flagged.
fn hear_all(
    alloc: Global,
    programs: &[ControlProgram],
    numbers: &ProgramNumbers,
    flags: &mut [bool],
) -> Result<(), NoMemory>
    requires known { KnowsPlaces programs.now numbers.now }
    requires sound { AreOnlyLoud programs.now flags.old }
    ensures sound { AreOnlyLoud programs.now flags.new }
{
    let callers = Callers::of(alloc, programs)?;
    let all: Vec<u16> = programs
        .iter()
        .map(|program| program.number)
        .collect(alloc)?;
    let mut fresh: Vec<u16> = Vec::new(alloc);
    hear_each(programs, numbers, flags, &all, &mut fresh)?;
    for _ in programs {
        let Some(number) = fresh.pop() else {
            return Ok(());
        };
        hear_each(
            programs,
            numbers,
            flags,
            callers.of_program(number),
            &mut fresh,
        )?;
    }
    Ok(())
}

/// Flags of loud programs; mostly of all of them, which is not promised.
fn heard_first(
    alloc: Global,
    numbers: &ProgramNumbers,
    programs: &[ControlProgram],
) -> Result<Vec<bool>, NoMemory>
    requires { KnowsPlaces programs.now numbers.now }
    ensures { IfOk result (λ flags. AreOnlyLoud programs.now flags.items) }
{
    let mut flags = none_loud(alloc, programs)?;
    hear_all(alloc, programs, numbers, &mut flags)?;
    Ok(flags)
}

/// The flags of exactly the loud programs. The first flags are looked at again until nothing
/// changes, which is mostly so at once.
fn loud_flags(
    alloc: Global,
    numbers: &ProgramNumbers,
    programs: &[ControlProgram],
) -> Result<Vec<bool>, NoMemory>
    requires { KnowsPlaces programs.now numbers.now }
    ensures { IfOk result (λ flags. is_flagged programs.now flags.items ≡ loud programs.now) }
{
    let mut flags = heard_first(alloc, numbers, programs)?;
    for _round in 0..programs.len() {
        let next = look_again(alloc, numbers, &flags, programs)?;
        if are_same(&next, &flags) {
            return Ok(flags);
        }
        flags = next;
    }
    Ok(flags)
}

impl LoudPrograms {
    /// The loud ones of these programs, whose places are known. The only error is that memory runs
    /// out.
    pub(crate) fn of(
        alloc: Global,
        programs: &[ControlProgram],
        numbers: ProgramNumbers,
    ) -> Result<Self, NoMemory>
        requires { KnowsPlaces programs.now numbers }
        ensures loud { IfOk result (λ known. is_kept_loud known ≡ loud programs.now) }
        ensures places { IfOk result (λ known. KnowsPlaces programs.now known.numbers) }
    {
        let flags = loud_flags(alloc, &numbers, programs)?;
        Ok(LoudPrograms { numbers, flags })
    }

    /// The place of the program with this O number, if the tape has one.
    pub fn place_of(&self, number: u16) -> Option<usize>
        ensures { result ≡ place_known self.now.numbers number }
    {
        self.numbers.place_of(number)
    }

    /// The blocks of the program with this O number, and none of no program.
    pub fn blocks_of<'a>(&self, programs: &'a [ControlProgram], number: u16) -> &'a [ControlBlock]
        requires { KnowsPlaces programs.now self.now.numbers }
        ensures { result.now ≡ blocks programs.now number }
    {
        self.numbers.blocks_of(programs, number)
    }

    /// The flag, at its place, of the program with this O number.
    pub fn flag_of(&self, flags: &[bool], number: u16) -> bool
        ensures { result ≡ flag_known self.now.numbers flags.now number }
    {
        flag_of(&self.numbers, flags, number)
    }

    /// Whether the program with this O number is loud; `false` for a number without a program.
    pub fn is_loud(&self, number: u16) -> bool
        ensures { result ≡ is_kept_loud self.now number }
    {
        flag_of(&self.numbers, &self.flags, number)
    }
}
