//! What a machine holds, as text: its records, shared variables #500 and #501, and each path.
//! walk.rt and edit_walk.rt of these tests compare two machines by it.
use crate::answer::{put_point, put_var};
use nc_number::{Path, Var};
use path_state::PathState;
use std::alloc::{AllocError, Global};
use tape_flow::Flow;
use two_path::Machine;

/// Puts a variable by this name, with what it holds.
fn put_named(out: &mut String, name: &str, value: &Var) -> Result<(), AllocError> {
    out.push_str(name)?;
    put_var(out, value)
}

/// The line and the position of a path, and its #1 and #2.
fn put_state(out: &mut String, state: &PathState, flow: &Flow) -> Result<(), AllocError> {
    let line = state.line(flow);
    write!(out, " line {line}")?;
    put_point(out, state.position())?;
    put_named(out, " #1 ", &state.local(1))?;
    put_named(out, " #2 ", &state.local(2))
}

/// Puts the code of the wait at which a path waits, if it does.
fn put_waiting(out: &mut String, waiting: Option<u16>) -> Result<(), AllocError> {
    match waiting {
        Some(code) => write!(out, " waits {code}"),
        None => Ok(()),
    }
}

/// A word where it holds.
fn put_where(out: &mut String, holds: bool, word: &str) -> Result<(), AllocError> {
    if holds { out.push_str(word) } else { Ok(()) }
}

/// What a path holds: its line and position, #1 and #2, and whether it waits or has ended.
fn put_path(
    out: &mut String,
    machine: &Machine,
    flow: &Flow,
    path: Path,
) -> Result<(), AllocError> {
    write!(out, " path {}", path.number())?;
    put_state(out, machine.path(path), flow)?;
    put_waiting(out, machine.waiting(path))?;
    put_where(out, machine.finished(path), " ended")
}

/// What a shared variable holds.
fn put_shared(out: &mut String, machine: &Machine, v: u32) -> Result<(), AllocError> {
    if !machine.is_shared(v) {
        return Ok(());
    }
    write!(out, " #{v} ")?;
    put_var(out, &machine.shared(v))
}

/// Puts how many records the machine has, and #500 and #501 where they are shared.
fn put_records(out: &mut String, machine: &Machine) -> Result<(), AllocError> {
    write!(out, "{} records", machine.count())?;
    put_shared(out, machine, 500)?;
    put_shared(out, machine, 501)
}

/// What a machine holds but for block reads.
pub(crate) fn state_of(
    alloc: Global,
    machine: &Machine,
    left: &Flow,
    right: &Flow,
) -> Result<String, AllocError> {
    let mut out = String::new(alloc);
    put_records(&mut out, machine)?;
    put_path(&mut out, machine, left, Path::One)?;
    put_path(&mut out, machine, right, Path::Two)?;
    put_where(&mut out, machine.alarm().is_some(), " alarm")?;
    Ok(out)
}

/// What the machine holds.
pub(crate) fn put_held(
    out: &mut String,
    alloc: Global,
    machine: &Machine,
    left: &Flow,
    right: &Flow,
) -> Result<(), AllocError> {
    let held = state_of(alloc, machine, left, right)?;
    out.push_str(held.as_str())
}

/// What the machine holds, where that is not what was held.
pub(crate) fn put_difference(
    out: &mut String,
    alloc: Global,
    first: &str,
    machine: &Machine,
    left: &Flow,
    right: &Flow,
) -> Result<(), AllocError> {
    let second = state_of(alloc, machine, left, right)?;
    if first == second.as_str() {
        return Ok(());
    }
    write!(out, " but then {first} is {second}")
}
