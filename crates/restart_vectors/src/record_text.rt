//! Records as text, so that a row of tests can have a history that is written by hand.
//! run.rt and turns.rt use it.
use nc_number::{Path, Point, Var};
use offset_store::Slot;
use run_records::{Edit, Entry, EntryKind, EntryList};
use std::alloc::{AllocError, Global};

/// Writes the name and the number of an offset.
fn put_slot(out: &mut String, slot: &Slot) -> Result<(), AllocError> {
    match slot {
        Slot::Work(n) => write!(out, "work {}", n.get()),
        Slot::Geometry(n) => write!(out, "tool {}", n.get()),
        Slot::Wear(n) => write!(out, "wear {}", n.get()),
    }
}

/// Writes a value in 0.000001, or `vacant`.
fn put_value(out: &mut String, to: &Var) -> Result<(), AllocError> {
    match to {
        Var::Vacant => out.push_str("vacant"),
        Var::Is(value) => write!(out, "{}", value.micro()),
    }
}

/// Writes what is edited and what it gets: X and Z in 0.001 mm, or a value in 0.000001.
fn put_edit(out: &mut String, edit: &Edit) -> Result<(), AllocError> {
    match edit {
        Edit::Offset { slot, to } => {
            put_slot(out, slot)?;
            let Point { x, z } = to.get();
            write!(out, " {x} {z}")
        }
        Edit::Common { variable, to } => {
            write!(out, "#{} ", variable.get())?;
            put_value(out, to)
        }
    }
}

/// Writes what a record says that a path did, or what was edited.
fn put_kind(out: &mut String, kind: &EntryKind) -> Result<(), AllocError> {
    match kind {
        EntryKind::Did => out.push_str("did"),
        EntryKind::Arrived => out.push_str("arrived"),
        EntryKind::Met => out.push_str("met"),
        EntryKind::Ended => out.push_str("ended"),
        EntryKind::Alarmed => out.push_str("alarmed"),
        EntryKind::Edited(edit) => {
            out.push_str("edits ")?;
            put_edit(out, edit)
        }
    }
}

/// Writes the number of the path, what it did or what was edited of it, and its stamps.
fn put_record(out: &mut String, entry: &Entry) -> Result<(), AllocError> {
    let number = entry.path.number();
    write!(out, "{number} ")?;
    put_kind(out, &entry.kind)?;
    for stamp in entry.stamps.as_slice() {
        write!(out, " {stamp}")?;
    }
    Ok(())
}

/// The records of a history as text, with commas between them.
pub(crate) fn history_text(alloc: Global, entries: &EntryList) -> Result<String, AllocError> {
    let mut out = String::new(alloc);
    for index in 0..entries.len() {
        if !out.is_empty() {
            out.push_str(", ")?;
        }
        put_record(&mut out, &entries.get(index))?;
    }
    Ok(out)
}

/// How many of the records the path made.
pub(crate) fn records_of(entries: &EntryList, path: Path) -> usize {
    let mut count = 0usize;
    for index in 0..entries.len() {
        if entries.get(index).path == path {
            count = count.saturating_add(1);
        }
    }
    count
}
