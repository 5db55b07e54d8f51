//! Records of steps, from the words of a row: `1 did 0`. For walk.rt of these tests.
ghost use Rattle.std.specs.Prelude.{◌≡◌, None};
ghost use Rattle.run_records.specs.Entries.{edit_of};

use crate::answer::path_of;
use run_records::{Entry, EntryKind, StampList};

/// A step of this word.
fn kind_of(word: &str) -> EntryKind
    ensures { edit_of result ≡ None }
{
    match word {
        "did" => EntryKind::Did,
        "arrived" => EntryKind::Arrived,
        "met" => EntryKind::Met,
        "ended" => EntryKind::Ended,
        _ => EntryKind::Alarmed,
    }
}

/// The stamp of a word. What is no number stands for a moment that never comes.
fn stamp_of(word: &str) -> u32 {
    word.parse::<u32>().unwrap_or(u32::MAX)
}

/// The record of a path's number, a kind, and stamps.
pub(crate) fn entry_of(text: &str) -> Entry {
    let mut words = text.split_whitespace();
    let path = path_of(words.next().unwrap_or(""));
    let kind = kind_of(words.next().unwrap_or(""));
    let mut stamps = StampList::empty();
    for word in words {
        if stamps.as_slice().len() < 32 {
            stamps.push(stamp_of(word));
        }
    }
    Entry::of_step(path, kind, stamps)
}
