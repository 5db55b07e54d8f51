//! A record of a run, and its bytes: it is spelled here, and read in reading.rt.

ghost use Rattle.std.specs.Prelude.{◌≡◌, ◌↔◌, ◌+◌, ◌*◌, ◌≤◌, ◌++◌, ◌∷◌, [], ℕ, List, length, take, drop, Option, Some, None, is_none, IsTrue};
ghost use Rattle.std.specs.Option.{option_copied};
ghost use Rattle.nc_number.specs.declared.limits.TheConstants.{MOST_READS};
ghost use Rattle.nc_number.specs.Path.{number_of};
ghost use Rattle.run_records.specs.declared.entry.TheConstants.{LONGEST_RECORD};
ghost use Rattle.run_records.specs.Edits.{numbers_of, IsEdit};
ghost use Rattle.run_records.specs.Entries.{edit_of, is_meeting};
ghost use Rattle.run_records.specs.Spelling.{kind_number, stamp_bytes, numbers_bytes, entry_bytes, IsEntry};

use crate::numbers::{EditNumbers, numbers_of};
use crate::{Edit, StampList};
use byteorder::{BigEndian, ByteOrder};
use nc_number::Path;
use std::marker::Model;

/// The most bytes of a record: path, kind and number of stamps, and 32 stamps of four bytes.
pub const LONGEST_RECORD: usize = 131;

/// What a path did in a step, or what was corrected of it.
#[derive(Clone, Copy, Debug, PartialEq, Eq)]
pub enum EntryKind {
    /// The path did a whole block.
    Did,
    /// The path arrived at a wait.
    Arrived,
    /// The path met the other path at a wait.
    Met,
    /// The path ended.
    Ended,
    /// The path raised an alarm.
    Alarmed,
    /// An operator corrected one of the path's offsets or variables.
    Edited(Edit),
}

impl EntryKind {
    /// The byte of this kind, from 1 to 6.
    pub(crate) fn number(&self) -> u8
        ensures { result ≡ kind_number self.now }
    {
        match self {
            EntryKind::Did => 1,
            EntryKind::Arrived => 2,
            EntryKind::Met => 3,
            EntryKind::Ended => 4,
            EntryKind::Alarmed => 5,
            EntryKind::Edited(_) => 6,
        }
    }

    /// The edit that the kind is, if it is one and no step.
    pub fn edit(&self) -> Option<&Edit>
        ensures { option_copied result ≡ edit_of self.now }
    {
        match self {
            EntryKind::Edited(edit) => Some(edit),
            _ => None,
        }
    }

    /// Whether the kind is a step of the path, and no edit.
    pub fn is_step(&self) -> bool
        ensures { result ≡ is_none (edit_of self.now) }
    {
        self.edit().is_none()
    }

    /// Whether the kind is a meeting of both paths.
    pub fn is_meeting(&self) -> bool
        ensures { result ≡ is_meeting self.now }
    {
        match self {
            EntryKind::Met => true,
            EntryKind::Did
            | EntryKind::Arrived
            | EntryKind::Ended
            | EntryKind::Alarmed
            | EntryKind::Edited(_) => false,
        }
    }

    /// Whether both kinds are one and the same step; an edit is none.
    pub fn is_same_step(&self, other: &EntryKind) -> bool
        ensures { IsTrue result ↔ ((self.now ≡ other.now) × (edit_of self.now ≡ None)) }
    {
        self.is_step() && self.number() == other.number()
    }
}

/// One record of a run. An edit has no stamps, since it reads nothing.
#[derive(Debug, Drop)]
pub struct Entry {
    /// The path that made the step, or that was corrected.
    pub path: Path,
    /// What it did, or what was corrected.
    pub kind: EntryKind,
    /// For each read of a shared variable in the step, the number of records at that moment.
    pub stamps: StampList,
}

// Clauses see the three fields.
impl Model for Entry {
    ghost use Rattle.run_records.specs.Entries;
    ghost use Rattle.run_records.specs.Entries.{MayHaveStamps};

    ghost Value = { Entries.Entry };

    ghost view = { λ e. record { path = e.path; kind = e.kind; stamps = e.stamps } };

    ghost invariant = { λ e. MayHaveStamps e.kind e.stamps };
}

impl Entry {
    ghost use Rattle.run_records.specs.declared.entry.EntryKind.TheVariants.{Edited};

    /// The record of a step.
    pub fn of_step(path: Path, kind: EntryKind, stamps: StampList) -> Entry
        requires { edit_of kind ≡ None }
        ensures { result ≡ record { path = path; kind = kind; stamps = stamps } }
    {
        Entry { path, kind, stamps }
    }

    /// The record of an edit.
    pub fn of_edit(path: Path, edit: &Edit) -> Entry
        ensures { result ≡ record { path = path; kind = Edited edit.now; stamps = [] } }
    {
        Entry {
            path,
            kind: EntryKind::Edited(*edit),
            stamps: StampList::empty(),
        }
    }
}

/// Puts a record's bytes at the front of the slice, and answers how many there are. It takes no
/// memory.
pub fn put_entry(entry: &Entry, into: &mut [u8]) -> usize
    requires { LONGEST_RECORD ≤ length into.old }
    ensures written { take result into.new ≡ entry_bytes entry.now }
    ensures rest { drop result into.new ≡ drop result into.old }
    ensures size { result ≡ length (entry_bytes entry.now) }
    ensures fits { result ≤ LONGEST_RECORD }
    ensures entry { IsEntry entry.now }
{
    put_head(entry.path, &entry.kind, into);
    match entry.kind.edit() {
        Some(edit) => put_edit(edit, into),
        None => put_stamps(entry.stamps.as_slice(), into),
    }
}

/// Puts the bytes of path and kind at the front of the slice.
fn put_head(path: Path, kind: &EntryKind, into: &mut [u8])
    requires { 2 ≤ length into.old }
    ensures { into.new ≡ number_of path ∷ kind_number kind.now ∷ drop 2 into.old }
{
    into[..2].copy_from_slice(&[path.number(), kind.number()]);
}

/// Puts the numbers of an edit after path and kind, and answers how many bytes the record has.
fn put_edit(edit: &Edit, into: &mut [u8]) -> usize
    requires { 21 ≤ length into.old }
    ensures bytes { into.new ≡ take 2 into.old ++ (numbers_bytes (numbers_of edit.now) ++ drop 21 into.old) }
    ensures size { result ≡ 21 }
    ensures edit { IsEdit edit.now }
{
    put_numbers(&numbers_of(edit), &mut into[2..]);
    21
}

/// Puts the bytes of the numbers of an edit at the front of the slice.
fn put_numbers(numbers: &EditNumbers, into: &mut [u8])
    requires { 19 ≤ length into.old }
    ensures { into.new ≡ numbers_bytes numbers.now ++ drop 19 into.old }
{
    into[0] = numbers.what;
    BigEndian::write_u16(&mut into[1..], numbers.number);
    BigEndian::write_i64(&mut into[3..], numbers.a);
    BigEndian::write_i64(&mut into[11..], numbers.b);
}

/// Puts the number of stamps and each of them after path and kind, and answers how many bytes the
/// record has.
fn put_stamps(stamps: &[u32], into: &mut [u8]) -> usize
    requires few { length stamps.now ≤ MOST_READS }
    requires room { LONGEST_RECORD ≤ length into.old }
    ensures bytes { into.new ≡ take 2 into.old
        ++ (length stamps.now ∷ (stamp_bytes stamps.now ++ drop (3 + 4 * length stamps.now) into.old)) }
    ensures size { result ≡ 3 + 4 * length stamps.now }
{
    into[2] = stamps.len() as u8;
    put_each(stamps, &mut into[3..]);
    3 + 4 * stamps.len()
}

/// Puts the bytes of each stamp, four of them, at the front of the slice.
fn put_each(stamps: &[u32], into: &mut [u8])
    requires { 4 * length stamps.now ≤ length into.old }
    ensures { into.new ≡ stamp_bytes stamps.now ++ drop (4 * length stamps.now) into.old }
{
    for (i, stamp) in stamps.iter().enumerate() {
        BigEndian::write_u32(&mut into[4 * i..], *stamp);
    }
}
