//! One path alone, for tables of tests: its tape is compiled by tape_flow, its blocks run one by
//! one in path_state, and what they do is told as text, so that a table has it written out by hand.
//! No second path runs: a wait is passed at once, and a shared variable reads as `shared_value`
//! says. Used by `block_rows`, `path_rows` and `system_rows`; `block_parts` takes two helpers.
ghost use Rattle.std.specs.Prelude.{◌≤◌};

use crate::move_text::{put_move, put_point, put_value};
use cell_settings::{Settings, read_settings};
use modal_state::Modal;
use nc_moves::MoveList;
use nc_number::{Failing, Point, Value, Var};
use nc_text::{Reader, Tape, TextFault};
use offset_store::Offsets;
use path_state::{Advance, PathState, control_goes_as_the_flow_orders};
use std::alloc::{AllocError, Global};
use std::test::Fail;
use tape_flow::{Flow, compile};

/// A byte of a tape: the end of a line for a `~`.
fn byte_of(byte: u8) -> u8 {
    if byte == b'~' { b'\n' } else { byte }
}

/// A text with each `~` as the end of a line.
fn lines_of(alloc: Global, text: &str) -> Result<Vec<u8>, AllocError> {
    let mut bytes = Vec::new(alloc);
    for byte in text.bytes() {
        bytes.push(byte_of(byte))?;
    }
    Ok(bytes)
}

/// The settings of a text in which `~` stands for the end of a line.
pub(crate) fn settings_of(alloc: Global, text: &str) -> Result<Settings, Fail> {
    let text = lines_of(alloc, text)?;
    if text.len() > 1_000 {
        return Err(Fail::new("settings of a thousand bytes at most"));
    }
    Ok(read_settings(alloc, text.as_slice())?)
}

/// The tape of a text.
fn tape_of(alloc: Global, text: &[u8]) -> Result<Tape, Failing<TextFault>> {
    let mut reader = Reader::new(alloc, 0)?;
    reader.feed(text)?;
    reader.finish()
}

/// The flow of a tape in which `~` stands for the end of a line.
pub(crate) fn flow_of(alloc: Global, text: &str, settings: &Settings) -> Result<Flow, Fail> {
    let bytes = lines_of(alloc, text)?;
    let tape = tape_of(alloc, bytes.as_slice())?;
    match compile(alloc, &tape, settings) {
        Ok(flow) => Ok(flow),
        Err(Failing::Fault(fault)) => {
            let (number, line) = (fault.number, fault.line);
            Err(Fail::new(format_args!("{text}: {number} at line {line}")))
        }
        Err(Failing::NoMemory) => Err(Fail::new("out of memory")),
    }
}

/// A refusal's number and line.
fn refusal_text(alloc: Global, number: u8, line: u32) -> Result<String, Fail> {
    Ok(format!(in alloc; "refused {number} line {line}")?)
}

/// The refusal of a tape, in which `~` stands for the end of a line, and its line.
pub(crate) fn refusal_of(alloc: Global, text: &str, settings: &Settings) -> Result<String, Fail> {
    let bytes = lines_of(alloc, text)?;
    let tape = tape_of(alloc, bytes.as_slice())?;
    match compile(alloc, &tape, settings) {
        Err(Failing::Fault(fault)) => refusal_text(alloc, fault.number, fault.line),
        Ok(_) => Err(Fail::new("a tape that is refused")),
        Err(Failing::NoMemory) => Err(Fail::new("out of memory")),
    }
}

/// So many units as a variable holds them.
pub(crate) fn units(number: i64) -> Var {
    match Value::of_units(number) {
        Some(value) => Var::Is(value),
        None => Var::Vacant,
    }
}

/// What each reading of a shared variable gives: #500 is 10, #501 is 11 and on; from #550 on they
/// are vacant.
fn shared_value(v: u32) -> Var {
    if v >= 550 {
        return Var::Vacant;
    }
    units(i64::from(v) - 490)
}

/// What a path's answer to its turn asks of the one who runs it.
enum Then {
    /// The block is not done: it takes its turn again, with the value of this shared variable too.
    Reads(u32),
    /// The path goes on with its next block.
    GoesOn,
    /// The path has stopped, at its end or by an alarm.
    Stops,
}

/// What the path answers to the turn of its block with these readings. It passes a wait at once.
fn answer(path: &mut PathState, flow: &Flow, reads: &[Var]) -> Advance {
    control_goes_as_the_flow_orders();
    match path.advance(flow, reads) {
        Advance::AtWait(code) => {
            path.pass_wait(flow);
            Advance::AtWait(code)
        }
        other => other,
    }
}

/// What the answer asks for. A wait has been passed already.
fn then_of(said: &Advance) -> Then {
    match said {
        Advance::Need(v) => Then::Reads(*v),
        Advance::Effect { .. } => Then::GoesOn,
        Advance::AtWait(_) => Then::GoesOn,
        Advance::AtEnd { .. } => Then::Stops,
        Advance::Alarm { .. } => Then::Stops,
    }
}

/// Adds the moves of a block, a line each behind `head`, and what it wrote to a shared variable.
fn put_effect(
    out: &mut String,
    head: &str,
    moves: &MoveList,
    write: &Option<(u32, Var)>,
) -> Result<(), AllocError> {
    put_moves(out, head, moves)?;
    match write {
        Some((v, value)) => put_variable(out, "writes #", *v, value),
        None => Ok(()),
    }
}

/// Adds the moves of a path's last block, a line each behind `head`, and then its end.
fn put_end(out: &mut String, head: &str, moves: &MoveList) -> Result<(), AllocError> {
    put_moves(out, head, moves)?;
    out.push_str("end\n")
}

/// Adds what the path answered to a turn, a line for each part, the moves behind `head`.
fn put_answer(out: &mut String, head: &str, said: &Advance) -> Result<(), AllocError> {
    match said {
        Advance::Need(v) => writeln!(out, "reads #{v}"),
        Advance::Effect { write, moves } => put_effect(out, head, &moves.list, write),
        Advance::AtWait(code) => writeln!(out, "wait {code}"),
        Advance::AtEnd { moves } => put_end(out, head, &moves.list),
        Advance::Alarm { cause, value } => put_alarm(out, *cause, *value),
    }
}

/// Adds what the path answered to a turn. What the answer asks for.
fn put_said(out: &mut String, head: &str, said: &Advance) -> Result<Then, AllocError> {
    put_answer(out, head, said)?;
    Ok(then_of(said))
}

/// Lets the path's block take a turn with the readings that it has so far and adds the answer. What
/// the answer asks for.
fn put_part(
    out: &mut String,
    head: &str,
    path: &mut PathState,
    flow: &Flow,
    reads: &[Var],
) -> Result<Then, AllocError> {
    put_said(out, head, &answer(path, flow, reads))
}

/// Runs the path's block, a turn for each of its readings, of which there are 32 at most, and one
/// more. Adds what was answered, a line for each part, the moves behind `head`. Whether the path
/// goes on.
pub(crate) fn put_turn(
    out: &mut String,
    head: &str,
    alloc: Global,
    path: &mut PathState,
    flow: &Flow,
) -> Result<bool, AllocError> {
    let mut reads = Vec::new(alloc);
    for _ in 0..33u8 {
        match put_part(out, head, path, flow, reads.as_slice())? {
            Then::Reads(v) => reads.push(shared_value(v))?,
            Then::GoesOn => return Ok(true),
            Then::Stops => return Ok(false),
        }
    }
    out.push_str("more than 32 readings\n")?;
    Ok(false)
}

/// Adds the moves, a line each, behind `head`.
fn put_moves(out: &mut String, head: &str, moves: &MoveList) -> Result<(), AllocError> {
    for what in moves.as_slice() {
        out.push_str(head)?;
        put_move(out, what)?;
        out.push('\n')?;
    }
    Ok(())
}

/// Adds an alarm by its number, and its value where that is not 0.
fn put_alarm(out: &mut String, cause: u8, value: Value) -> Result<(), AllocError> {
    write!(out, "alarm {cause}")?;
    if value != Value::zero() {
        out.push(' ')?;
        put_value(out, value)?;
    }
    out.push('\n')
}

/// Adds what a variable holds, or that it is vacant.
pub(crate) fn put_var(out: &mut String, value: &Var) -> Result<(), AllocError> {
    match value {
        Var::Vacant => out.push_str("vacant"),
        Var::Is(value) => put_value(out, *value),
    }
}

/// Adds a line with a variable's number, behind this head, and what it holds.
fn put_variable(out: &mut String, head: &str, v: u32, value: &Var) -> Result<(), AllocError> {
    write!(out, "{head}{v} ")?;
    put_var(out, value)?;
    out.push('\n')
}

/// Adds a line with a numbered point, such as an offset.
fn put_named_point(out: &mut String, head: &str, n: u8, at: Point) -> Result<(), AllocError> {
    write!(out, "{head} {n}")?;
    put_point(out, at)?;
    out.push('\n')
}

/// What a path holds, a line for each part: always the same parts in the same order, so that the
/// lines of two states can be compared one by one. Of its tool offsets 1, 2 and 64 are looked at,
/// and of its own common variables #100 to #102 and #600 to #602.
pub(crate) fn state_of(alloc: Global, path: &PathState) -> Result<String, AllocError> {
    let mut out = String::new(alloc);
    put_place(&mut out, path)?;
    put_modal(&mut out, path.modal())?;
    put_offsets(&mut out, path.offsets())?;
    put_locals(&mut out, path)?;
    put_own(&mut out, path)?;
    Ok(out)
}

/// Adds where the turret stands in machine coordinates, how many calls are open, the program that
/// runs, and how many of its repeats are still to come.
fn put_place(out: &mut String, path: &PathState) -> Result<(), AllocError> {
    out.push_str("at")?;
    put_point(out, path.position())?;
    let running = path.place().running();
    let (depth, program, left) = (path.depth(), running.program, running.left);
    writeln!(out, "\ndepth {depth}\nin O{program}\nleft {left}")
}

/// The groups of codes that a modal state keeps; system A has no group 3.
const GROUPS: &[u8] = &[1, 2, 3, 5, 6, 7, 14];

/// Adds the code in force of each group, a line each.
fn put_groups(out: &mut String, modal: &Modal) -> Result<(), AllocError> {
    for group in GROUPS {
        match modal.code(*group) {
            Some(code) => writeln!(out, "G{code:02}")?,
            None => out.push_str("none\n")?,
        }
    }
    Ok(())
}

/// Adds a line with a name and a value.
fn put_named(out: &mut String, name: &str, value: &Var) -> Result<(), AllocError> {
    out.push_str(name)?;
    put_var(out, value)?;
    out.push('\n')
}

/// Adds what is in force: the codes, F, S and the highest speed, the tool and the number of its
/// offset, and the kept end of a cycle.
fn put_modal(out: &mut String, modal: &Modal) -> Result<(), AllocError> {
    put_groups(out, modal)?;
    put_named(out, "F ", &modal.feed())?;
    put_named(out, "S ", &modal.speed())?;
    put_named(out, "limit ", &modal.limit())?;
    let (tool, offset) = (modal.tool(), modal.offset());
    writeln!(out, "T{tool:04}\noffset {offset}")?;
    put_cycle(out, modal.cycle())
}

/// Adds the kept end of the cycle in force, or that there is none.
fn put_cycle(out: &mut String, cycle: Option<Point>) -> Result<(), AllocError> {
    match cycle {
        Some(end) => {
            out.push_str("cycle")?;
            put_point(out, end)?;
            out.push('\n')
        }
        None => out.push_str("no cycle\n"),
    }
}

/// Adds the offsets that are looked at: all of the work, and of the tools 1, 2 and 64.
fn put_offsets(out: &mut String, offsets: &Offsets) -> Result<(), AllocError> {
    for n in 0..7u8 {
        put_named_point(out, "work", n, offsets.work(n))?;
    }
    for n in 1..3u8 {
        put_tool_offset(out, n, offsets)?;
    }
    put_tool_offset(out, 64, offsets)
}

/// Adds a tool's offset: its geometry and its wear.
fn put_tool_offset(out: &mut String, n: u8, offsets: &Offsets) -> Result<(), AllocError>
    requires { n ≤ 64 }
{
    put_named_point(out, "geometry", n, offsets.geometry(n))?;
    put_named_point(out, "wear", n, offsets.wear(n))
}

/// Adds the local variables of the running level, a line each.
fn put_locals(out: &mut String, path: &PathState) -> Result<(), AllocError> {
    for i in 1..34u8 {
        put_variable(out, "#", u32::from(i), &path.local(i))?;
    }
    Ok(())
}

/// Adds those of the path's own common variables that are looked at, a line each.
fn put_own(out: &mut String, path: &PathState) -> Result<(), AllocError> {
    for v in 100..103u32 {
        put_variable(out, "#", v, &path.own(v))?;
    }
    for v in 600..603u32 {
        put_variable(out, "#", v, &path.own(v))?;
    }
    Ok(())
}

/// Adds the lines of a state that are not those of the state before it at the same place. Both have
/// as many lines.
fn put_differences(out: &mut String, before: &str, after: &str) -> Result<(), AllocError> {
    let mut lines = after.lines();
    for old in before.lines() {
        let new = lines.next().unwrap_or("");
        if old != new {
            writeln!(out, "{new}")?;
        }
    }
    Ok(())
}

/// Adds the lines of the path's state that are not those of the state before.
pub(crate) fn put_changes(
    out: &mut String,
    alloc: Global,
    before: &str,
    path: &PathState,
) -> Result<(), AllocError> {
    let after = state_of(alloc, path)?;
    put_differences(out, before, after.as_str())
}

/// A text of lines with `~` between them.
pub(crate) fn on_one_line(alloc: Global, text: &str) -> Result<String, AllocError> {
    let mut out = String::new(alloc);
    for line in text.lines() {
        if !out.is_empty() {
            out.push('~')?;
        }
        out.push_str(line)?;
    }
    Ok(out)
}
