//! Tests of block_order and wait_order: the order of the blocks of small tapes, or their first
//! fault. The proofs of this file say that each tape is one that may be checked.
ghost use Rattle.std.specs.Prelude.{◌≡◌, ◌++◌, true, IfOk, OnOk};
ghost use Rattle.block_order.specs.Shape.{IsReadTape, lines_of_program, lines_in};
ghost use Rattle.nc_number.specs.Rising.{RiseFrom};
ghost use Rattle.block_order.specs.declared.program.ControlProgram.{ControlProgram};

use crate::call::{Call, call_of, number};
use crate::tape::refusal;
use block_order::{BlockOrder, Control, ControlBlock, ControlBlockList, ControlProgram};
use nc_number::{Failing, MOST_BLOCKS, NoMemory};
use std::alloc::{AllocError, Global};
use std::test::Fail;
use wait_order::check_order;

/// The programs of a tape, parted by `;`, each with the line of its O number and its blocks, of
/// which each stands a line further on than the one before; and the refusal of the tape, or `none`.
/// Or, behind a `|`, where a jump from a block of the first program leads: a search for its
/// sequence number, or the target that is permitted.
const ROWS: &str = "\
O1 1: GOTO 10, M100, N10 M30; O2 101: M99 = refused 65 line 2
O1 1: GOTO 10, N10 X1., M100, M30; O2 101: M99 = none
O1 1: GOTO #1, M100, N10 M30; O2 101: M99 = refused 65 line 2
O1 1: N10 X1., M100, GOTO #1, M30; O2 101: M99 = refused 65 line 4
O1 1: GOTO #1, N10 X1., M100, N10 M30; O2 101: M99 = none
O1 1: DO 1, M100, END 1, M30; O2 101: M99 = refused 65 line 4
O1 1: DO 1, END 1, M100, M30; O2 101: M99 = none
O1 1: M98 P2, M100, N10 M30; O2 101: M99 P10 = refused 65 line 2
O1 1: M98 P2, N10 M100, M30; O2 101: M99 P10 = none
O1 1: M98 P2, N10 M30; O2 101: M100, M99 P10 = refused 65 line 103
O1 1: N20 X1., N20 M100, N10 M98 P2, N20 M30; O2 101: \
M99 P20, M99 P20, M99 P20, M99 P20, M99 P20, M99 P20, M99 P20, M99 P20, M99 P20, M99 P20, \
M99 P20, M99 P20, M99 P20, M99 P20, M99 P20, M99 P20, M99 P20, M99 P20, M99 P20, M99 P20, \
M99 P20, M99 P20, M99 P20, M99 P20, M99 P20, M99 P20, M99 P20, M99 P20, M99 P20, M99 P20, \
M99 P20, M99 P20, M99 P20, M99 P20, M99 P20, M99 P20, M99 P20, M99 P20, M99 P20, M99 P20, \
M99 P20, M99 P20, M99 P20, M99 P20, M99 P20, M99 P20, M99 P20, M99 P20, M99 P20, M99 P20, \
M99 P20, M99 P20, M99 P20, M99 P20, M99 P20, M99 P20, M99 P20, M99 P20, M99 P20, M99 P20, \
M99 P20, M99 P20, M99 P20, M99 P20, M99 P20, M99 P20, M99 P20, M99 P20, M99 P20, M99 P10 = none
O1 1: N10 M100, N20 M98 P2, M98 P2, M30; O2 101: \
M99 P20, M99 P20, M99 P20, M99 P20, M99 P20, M99 P20, M99 P20, M99 P20, M99 P20, M99 P20, \
M99 P20, M99 P20, M99 P20, M99 P20, M99 P20, M99 P20, M99 P20, M99 P20, M99 P20, M99 P20, \
M99 P20, M99 P20, M99 P20, M99 P20, M99 P20, M99 P20, M99 P20, M99 P20, M99 P20, M99 P20, \
M99 P20, M99 P20, M99 P20, M99 P20, M99 P20, M99 P20, M99 P20, M99 P20, M99 P20, M99 P20, \
M99 P20, M99 P20, M99 P20, M99 P20, M99 P20, M99 P20, M99 P20, M99 P20, M99 P20, M99 P20, \
M99 P20, M99 P20, M99 P20, M99 P20, M99 P20, M99 P20, M99 P20, M99 P20, M99 P20, M99 P20, \
M99 P20, M99 P20, M99 P20, M99 P20, M99 P20, M99 P20, M99 P20, M99 P20, M99 P20, M99 P10 = refused 65 line 3
O1 1: M98 P2, M99; O2 11: M98 P3, M99; O3 21: M98 P4, M99; O4 31: M98 P5, M99; O5 41: M98 P6, M99; \
O6 51: M98 P7, M99; O7 61: M98 P8, M99; O8 71: M98 P9, M99; O9 81: M100, M99 = none
O1 1: M98 P2, M99; O2 11: M98 P3, M99; O3 21: M98 P4, M99; O4 31: M98 P5, M99; O5 41: M98 P6, M99; \
O6 51: M98 P7, M99; O7 61: M98 P8, M99; O8 71: M98 P9, M99; O9 81: M98 P10, M99; O10 91: M100, M99 = refused 66 line 82
O1 1: DO 1, DO 1, END 1, END 1 = refused 52 line 3
O1 1: DO 1, DO 1, END 1 = refused 52 line 2
O1 1: DO 1, WHILE 2, END 1, END 2 = refused 52 line 4
O1 1: END 1 = refused 52 line 2
O1 1: WHILE 1, DO 2, END 2, END 1, DO 1, END 1 = none
O1 2: DO 1, END 1; O1 5: DO 1, DO 2, END 1 = refused 60 line 5
O1 1: N10 X1., N20 X1., N10 X1., GOTO 10 | seek 0 10 = Some(2)
O1 1: N10 X1., N20 X1., N10 X1., GOTO 10 | seek 1 10 = Some(2)
O1 1: N10 X1., N20 X1., N10 X1., GOTO 10 | seek 2 10 = Some(0)
O1 1: N10 X1., N20 X1., N10 X1., GOTO 10 | seek 3 10 = Some(0)
O1 1: N10 X1., N20 X1., N10 X1., GOTO 10 | seek 2 20 = Some(1)
O1 1: N10 X1., N20 X1., N10 X1., GOTO 10 | seek 2 30 = None
O1 1: X1., DO 1, N10 X1., X1., END 1, X1. | target 1 10 = None
O1 1: X1., DO 1, N10 X1., X1., END 1, X1. | target 2 10 = Some(2)
O1 1: X1., DO 1, N10 X1., X1., END 1, X1. | target 4 10 = Some(2)
O1 1: X1., DO 1, N10 X1., X1., END 1, X1. | target 5 10 = None";

/// Puts the line of a program's O number and those of its blocks to the others.
fn push_lines(lines: &mut Vec<u32>, program: &ControlProgram) -> Result<(), NoMemory>
    ensures { OnOk result (lines.new.items ≡ lines.old.items ++ lines_of_program program.now) }
{
    lines.push(program.line)?;
    for block in program.blocks.as_slice() {
        lines.push(block.line)?;
    }
    Ok(())
}

/// The lines of all programs and blocks of a tape, in their order.
fn all_lines(alloc: Global, tape: &[ControlProgram]) -> Result<Vec<u32>, NoMemory>
    ensures { IfOk result (λ lines. lines.items ≡ lines_in tape.now) }
{
    let mut lines = Vec::new(alloc);
    for program in tape {
        push_lines(&mut lines, program)?;
    }
    Ok(lines)
}

/// Whether each line is above the one before it, and the first above 0.
fn is_rising(lines: &[u32]) -> bool
    ensures { result ≡ true → RiseFrom 0 lines.now }
{
    let mut low: u32 = 0;
    for line in lines {
        if *line <= low {
            return false;
        }
        low = *line;
    }
    true
}

/// Whether the tape may be checked: it has a program, its lines rise, and they are not too many.
fn is_listed(alloc: Global, tape: &[ControlProgram]) -> Result<bool, NoMemory>
    ensures { IfOk result (λ listed. listed ≡ true → IsReadTape tape.now) }
{
    let lines = all_lines(alloc, tape)?;
    if tape.is_empty() || lines.len() > MOST_BLOCKS {
        return Ok(false);
    }
    let rising = is_rising(&lines);
    Ok(rising)
}

/// A head or an end of a loop, by its name; any other name goes on to the next block.
fn loop_part_of(call: Call) -> Control {
    let name = u8::try_from(call.first).unwrap_or(0);
    match call.name {
        "WHILE" => Control::While(name),
        "DO" => Control::Do(name),
        "END" => Control::EndLoop(name),
        _ => Control::Next,
    }
}

/// A jump to a sequence number; to a computed one if the number is 0, as it is if it does not read.
fn jump_to(number: u16) -> Control {
    if number == 0 {
        Control::Goto(None)
    } else {
        Control::Goto(Some(u32::from(number)))
    }
}

/// M99, with the sequence number behind its P; without one if the number is 0.
fn return_to(number: u16) -> Control {
    if number == 0 {
        Control::Back
    } else {
        Control::BackTo(u32::from(number))
    }
}

/// What a block that is written as this call does to the order of blocks.
fn control_of(call: Call) -> Control {
    match call.name {
        "GOTO" => jump_to(call.first),
        "M100" => Control::Wait(100),
        "M30" => Control::End,
        "M98" => Control::Call {
            program: call.first,
            repeats: 1,
        },
        "M99" => return_to(call.first),
        _ => loop_part_of(call),
    }
}

/// The block at a line, with its sequence number if one is written.
fn block_of(line: u32, text: &str) -> ControlBlock {
    let (sequence, said) = match text.strip_prefix('N') {
        Some(numbered) => numbered.split_once(' ').unwrap_or((numbered, "")),
        None => ("", text),
    };
    ControlBlock {
        line,
        sequence: sequence.parse().ok(),
        control: control_of(call_of(said)),
    }
}

/// The blocks of a program, parted by commas, from the line behind this one on.
fn blocks_of(alloc: Global, line: u32, text: &str) -> Result<ControlBlockList, NoMemory> {
    let mut blocks = Vec::new(alloc);
    let mut next = line;
    for block in text.split(", ") {
        next = next.saturating_add(1);
        blocks.push(block_of(next, block))?;
    }
    Ok(ControlBlockList::of(blocks))
}

/// A program from `O1 1: GOTO 10, M30`, in which the O number stands in line 1.
fn program_of(alloc: Global, text: &str) -> Result<ControlProgram, NoMemory> {
    let (head, blocks) = text.split_once(": ").unwrap_or((text, ""));
    let head = call_of(head);
    let line = u32::from(head.first);
    Ok(ControlProgram {
        number: number(head.name.strip_prefix('O')),
        line,
        blocks: blocks_of(alloc, line, blocks)?,
    })
}

/// The programs of a row.
fn tape_of(alloc: Global, text: &str) -> Result<Vec<ControlProgram>, NoMemory> {
    let mut tape = Vec::new(alloc);
    for program in text.split("; ") {
        tape.push(program_of(alloc, program)?)?;
    }
    Ok(tape)
}

/// The place to which a jump leads, as text.
fn shown(alloc: Global, led: Option<u32>) -> Result<String, AllocError> {
    format!(in alloc; "{led:?}")
}

/// Where a jump of the first program leads, or `none` if nothing is asked.
fn told(alloc: Global, order: &BlockOrder, call: Call) -> Result<String, AllocError> {
    let (block, number) = (u32::from(call.first), u32::from(call.second));
    match call.name {
        "seek" => shown(alloc, order.seek(1, block, number)),
        "target" => shown(alloc, order.target(1, block, number).ok()),
        _ => String::from_str(alloc, "none"),
    }
}

/// The refusal of a tape, or what is asked of its order.
fn answer(alloc: Global, tape: Vec<ControlProgram>, call: Call) -> Result<String, AllocError>
    requires { IsReadTape tape.items }
{
    match check_order(alloc, tape) {
        Ok(order) => told(alloc, &order, call),
        Err(Failing::Fault(fault)) => refusal(alloc, fault.cause.number(), fault.line),
        Err(Failing::NoMemory) => String::from_str(alloc, "no memory"),
    }
}

/// Whether a row holds; one whose tape may not be checked does not.
fn holds(alloc: Global, row: &str) -> Result<bool, Fail> {
    let (asked, wanted) = row.split_once(" = ").ok_or("a tape and what is told")?;
    let (text, call) = asked.split_once(" | ").unwrap_or((asked, ""));
    let tape = tape_of(alloc, text)?;
    if !is_listed(alloc, &tape)? {
        return Ok(false);
    }
    let got = answer(alloc, tape, call_of(call))?;
    Ok(got.as_str() == wanted)
}

#[test]
fn a_tape_and_the_first_fault_of_its_order(rt: HostRuntime) -> Result<(), Fail> {
    for row in ROWS.lines() {
        assert!(&rt; holds(rt.alloc(), row)?, "{row}");
    }
    Ok(())
}
