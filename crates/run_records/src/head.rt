//! What a list of records keeps of each one beside its stamps, or beside its edit: a head of 16
//! bytes. For lists.rt of this crate alone.

ghost use Rattle.std.specs.Prelude.{◌≡◌, Some, None, IfSome};
ghost use Rattle.run_records.specs.Entries.{edit_of};
ghost use Rattle.run_records.specs.Heads.{step_of, step_in};

use crate::EntryKind;
use nc_number::Path;

/// The kind of a record without its edit, by the names of `EntryKind`.
#[derive(Clone, Copy, Debug)]
pub(crate) enum HeadKind {
    Did,
    Arrived,
    Met,
    Ended,
    Alarmed,
    Edited,
}

impl HeadKind {
    /// The kind of a record, without its edit.
    pub(crate) fn of(kind: &EntryKind) -> HeadKind
        ensures { step_of result ≡ step_in kind.now }
    {
        match kind {
            EntryKind::Did => HeadKind::Did,
            EntryKind::Arrived => HeadKind::Arrived,
            EntryKind::Met => HeadKind::Met,
            EntryKind::Ended => HeadKind::Ended,
            EntryKind::Alarmed => HeadKind::Alarmed,
            EntryKind::Edited(_) => HeadKind::Edited,
        }
    }

    /// The step that the kind is, if it is no edit.
    pub(crate) fn step(self) -> Option<EntryKind>
        ensures step { result ≡ step_of self }
        ensures no_edit { IfSome result (λ kind. edit_of kind ≡ None) }
    {
        match self {
            HeadKind::Did => Some(EntryKind::Did),
            HeadKind::Arrived => Some(EntryKind::Arrived),
            HeadKind::Met => Some(EntryKind::Met),
            HeadKind::Ended => Some(EntryKind::Ended),
            HeadKind::Alarmed => Some(EntryKind::Alarmed),
            HeadKind::Edited => None,
        }
    }
}

/// The head of a record in a list. A record has place for 32 stamps, and most records have none. A
/// list keeps the stamps of all its records in one row and the edits in another, and of each record
/// a head, which says where its stamps stand among the stamps, or its edit among the edits.
#[derive(Clone, Copy, Debug)]
pub(crate) struct Head {
    /// The path of the record.
    pub(crate) path: Path,
    /// The kind of the record, without its edit.
    pub(crate) kind: HeadKind,
    /// How many stamps the record has, at most 32.
    pub(crate) count: u8,
    /// How many stamps stand before its first one, or how many edits before the one that it is.
    pub(crate) first: usize,
}

/// A run of millions of records is as large as its heads.
const _: () = prove!(size_of::<Head>() <= 16);
