//! Tests of a `FileDisk` over the fake folder: what is on the medium, call by call, and what a
//! power cut leaves of it.
use crate::answers::{is_count, is_done};
use crate::fake_folder::{Call, FakeFolder, System, new_system};
use crate::medium::{Bytes, Medium, are, bytes_of, no_bytes};
use disk_model::{Disk, Failed};
use real_outside::{Access, FileDisk, Trouble};
use std::cell::Cell;
use std::io::ErrorKind;
use std::test::Fail;

/// The name of the journal, which the fake folder does not look at.
const NAME: &str = "a.journal";

/// Steps, one after the other. A body of two bytes after an open gate is `10002ab`, and the next
/// gate is shut: `0`.
///
/// Calls of the disk, with their answers: `write PLACE BYTES ANSWER`, `sync ANSWER`, `reads BYTES`,
/// `len COUNT`, `faults COUNT`. What the disk says of its journal: `says TROUBLE`. What is on the
/// medium: `medium BYTES`. Which calls the system had since it was asked last, without those that
/// read: `calls LETTERS`, open `o`, open to look `l`, make `m`, hold `h`, write `w`, sync `s`, sync
/// of the folder `f`, make the file that may take its place `n`, give it the name `r`.
///
/// What happens besides: `has BYTES`, as a file on the medium; `left BYTES`, as one that was to take
/// a place; `other PLACE BYTES`, another program writes; `meanwhile PLACE BYTES`, it does so in the
/// course of the next sync; `made BYTES`, it makes the file before this one can; `overtaken`, it
/// renews the file before the lock is free; `again`, `resume` and `look`, the next program opens the
/// file, to write, to go on or to look; `cut`, the power goes, and then `again`; `tear`, it goes and
/// tears each write; `eager`, a new name is on the medium at once; `stop COUNT`, after so many calls
/// nothing is done any more; `fail CALL` and `refuse CALL` and `still CALL`, the next call of this
/// letter fails, for want of the disk, of the right, or since the disk can't be written; `short`,
/// reads and writes come to two bytes at most and every other one is interrupted; `held`;
/// `replaced`; `removed`; `link`, the name is a symbolic link.
///
/// The journal of a run that is over ends with a batch: `100072140240`, both paths ended, or
/// `100041150`, an alarm. Behind `100041140`, path 1 ended, and `1000811115555`, a block with a
/// stamp, it goes on.
const ROWS: &str = "\
sync done, calls of, write 0 0 done, calls mhw, sync done, calls sf, write 1 0002ab0 done, sync done, write 0 1 done, sync done, calls wsws, medium 10002ab0
write 0 0 done, cut, reads , again, write 0 0 done, stop 1, sync failed, cut, reads
write 0 0 done, sync done, cut, reads 0, calls omhwsfoh
has 0, sync done, write 1 0002ab0 done, cut, reads 0
has 0, sync done, write 1 0002ab0 done, sync done, write 0 1 done, cut, reads 00002ab0
has 0, sync done, write 1 0002ab0 done, sync done, write 0 1 done, sync done, cut, reads 10002ab0
has 0, sync done, stop 0, write 1 0002ab0 failed, sync failed, faults 2, cut, reads 0
has 0, sync done, stop 6, write 1 0002ab0 failed, sync failed, faults 2, cut, reads 0
has 0, sync done, stop 7, write 1 0002ab0 done, sync failed, write 0 1 failed, faults 2, cut, reads 0
has 0, sync done, stop 8, write 1 0002ab0 done, sync done, write 0 1 failed, sync failed, cut, reads 00002ab0
has 0, sync done, stop 9, write 1 0002ab0 done, sync done, write 0 1 done, sync failed, cut, reads 00002ab0
has 0, sync done, write 1 0002ab0 done, sync done, write 0 1 done, fail s, sync failed, sync failed, faults 2, resume, sync done, reads 10002ab0, cut, reads 10002ab0
has 0, sync done, write 1 0002ab0 done, sync done, write 0 1 done, fail s, sync failed, again, sync done, reads 10002ab0, write 8 0001c0 done, cut, reads 10002ab0
has 0, sync done, write 1 0002ab0 done, sync done, write 0 1 done, fail s, sync failed, look, sync done, len 8, reads 10002ab0, medium 00002ab0
has 10002ab10002cd0, sync done, write 15 0002ef0 done, sync done, write 14 1 done, fail s, sync failed, resume, fail s, sync failed, resume, sync done, cut, reads 10002ab10002cd10002ef0
has 10002ab0, sync done, calls ohsf, sync done, calls s, reads 10002ab0, write 8 0001c0 done, calls nhwsrfw
has 10002ab0, resume, sync done, calls ohnhwsrfs, sync done, calls s, write 8 0001c0 done, calls w, medium 10002ab0
has 10002ab0xxxxxxxxxx, sync done, calls ohsf, medium 10002ab0xxxxxxxxxx
has 10002ab0xxxxxxxxxx, resume, sync done, medium 10002ab0
has 10002ab1000721402400, resume, sync done, calls ohsf, sync done, calls s
has 10002ab1000411500, resume, sync done, calls ohsf
has 10002ab1000411400, resume, sync done, calls ohnhwsrfs
has 10002ab10008111155550, resume, sync done, calls ohnhwsrfs
has 0, resume, sync done, calls ohsf
has 10002ab, resume, sync done, calls ohsf
has 10002ab0, stop 2, sync failed, cut, reads 10002ab0
has 10002ab0, stop 3, sync failed, cut, reads 10002ab0
has 10002ab0, resume, stop 3, sync failed, tear, reads 10002ab0
has 10002ab0, resume, stop 4, sync failed, tear, reads 10002ab0
has 10002ab0, resume, stop 5, sync failed, tear, reads 10002ab0
has 10002ab0, resume, stop 6, sync failed, tear, reads 10002ab0
has 10002ab0, resume, stop 7, sync failed, tear, reads 10002ab0
has 10002ab0, resume, stop 8, sync failed, tear, reads 10002ab0
has 10002ab0, eager, resume, stop 5, sync failed, tear, reads 10002ab0
has 10002ab0, eager, resume, stop 7, sync failed, tear, reads 10002ab0
has 10002ab0, eager, resume, stop 8, sync failed, tear, reads 10002ab0
has 10002ab0, sync done, stop 7, write 8 0001c0 done, sync failed, tear, len 14, resume, sync done, len 8, reads 10002ab0
has 10002ab0, left xyz, resume, sync done, reads 10002ab0, again, sync done, reads 10002ab0
left xyz, write 0 0 done, sync done, medium 0
has 0, sync done, fail w, write 1 0002ab0 failed, sync failed, write 1  failed, len failed, faults 4, again, sync done, reads 0
has 0, sync done, fail n, write 1 0002ab0 failed, sync failed, again, sync done, reads 0
has 0, sync done, fail r, write 1 0002ab0 failed, sync failed, again, sync done, reads 0
fail f, write 0 0 done, sync failed, sync failed, again, sync done, cut, reads 0
fail m, write 0 0 failed, sync failed, again, sync done, reads , write 0 0 done, sync done, medium 0
fail o, len failed, len 0, fail h, has 0, faults 1
has 0, short, sync done, write 1 0002ab0 done, sync done, write 0 1 done, sync done, medium 10002ab0, resume, sync done, reads 10002ab0, look, sync done, reads 10002ab0
has 0, held, sync failed, says held, len failed, calls oh
has 0, overtaken, sync done, calls ohohsf, write 1 0002ab0 done
made 10002ab0, write 0 0 failed, says made, medium 10002ab0
made , write 0 0 done, calls omohnhsrfw, sync done, medium 0
made 0, held, write 0 0 failed, says held
has 0, refuse o, sync failed, says unwritable, len failed, write 0 1 failed, calls o
refuse m, write 0 0 failed, says unwritable
has 0, sync done, refuse n, write 1 0002ab0 failed, says fixed, medium 0
has 0, link, sync done, reads 0, write 1 0002ab0 failed, says linked, medium 0
link, write 0 0 failed, says linked
has 0, sync done, replaced, write 1 0002ab0 failed, says replaced, sync failed, write 0 1 failed
write 0 0 done, sync done, replaced, write 1 0002ab0 done, sync failed, says replaced, write 0 1 failed
has 0, sync done, removed, sync failed, says replaced
write 0 0 done, sync done, removed, sync failed, says replaced
has 10002ab0, still s, sync failed, look, still s, sync done, reads 10002ab0, still f, sync done, faults 0
has 10002ab0, look, calls , sync done, calls lsf, write 7 1 failed, faults 1, medium 10002ab0
look, sync done, len 0, write 0 0 failed, calls lf, faults 1, medium
has 0, look, fail s, sync failed, faults 1
has 0, look, fail f, sync failed, faults 1
has 0, other 0 10002ab0, look, sync done, reads 10002ab0, medium 10002ab0
has 0, look, sync done, other 0 10002ab0, len 1, reads 0, again, sync done, reads 10002ab0
has 0, look, meanwhile 0 10002ab0, sync done, len 1, reads 0
has 10002ab0, look, sync done, other 8 0002cd0, other 7 1, len 8, reads 10002ab0, look, sync done, len 15, reads 10002ab10002cd0
has 10002ab, look, sync done, len 7, reads 10002ab
has 1000, look, sync done, len 4, reads 1000";

/// The trouble of this name.
fn trouble_of(name: &str) -> Option<Trouble> {
    match name {
        "held" => Some(Trouble::Held),
        "unwritable" => Some(Trouble::Unwritable),
        "replaced" => Some(Trouble::Replaced),
        "made" => Some(Trouble::Made),
        "linked" => Some(Trouble::Linked),
        "fixed" => Some(Trouble::Fixed),
        _ => None,
    }
}

/// The call of this letter.
fn call_of(letter: &str) -> Call {
    match letter {
        "o" => Call::Open,
        "m" => Call::Make,
        "n" => Call::Next,
        "r" => Call::Replace,
        "h" => Call::Hold,
        "w" => Call::Write,
        "s" => Call::Sync,
        _ => Call::Folder,
    }
}

/// The number that the text writes, or 0.
fn number(text: &str) -> u64 {
    text.parse::<u64>().unwrap_or(0)
}

/// Writes the bytes that a text tells.
fn write(disk: &mut FileDisk<'_, FakeFolder<'_>>, at: u64, text: &str) -> Result<(), Failed> {
    let bytes = bytes_of(text);
    disk.write_at(at, &bytes.all[..bytes.len.min(bytes.all.len())])
}

/// Whether a read from the first byte on gives these bytes.
fn reads(disk: &mut FileDisk<'_, FakeFolder<'_>>, wanted: &str) -> bool {
    let mut found = no_bytes();
    match disk.read_at(0, &mut found.all) {
        Ok(count) => {
            found.len = count;
            are(&found, wanted)
        }
        Err(Failed) => false,
    }
}

/// Makes the step as a call of the disk, and tells whether it gets its answer. None if the step is
/// no call of the disk.
fn of_disk(
    disk: &mut FileDisk<'_, FakeFolder<'_>>,
    words: (&str, &str, &str, &str),
) -> Option<bool> {
    match words.0 {
        "write" => Some(is_done(write(disk, number(words.1), words.2), words.3)),
        "sync" => Some(is_done(disk.sync(), words.1)),
        "reads" => Some(reads(disk, words.1)),
        "len" => Some(is_count(disk.len(), words.1)),
        "faults" => Some(is_count(Ok(disk.faults()), words.1)),
        "says" => Some(disk.trouble() == trouble_of(words.1)),
        _ => None,
    }
}

/// Makes the step as something that happens to the system, or tells whether the system is as the
/// step says.
fn of_system(system: &mut System, words: (&str, &str, &str, &str)) -> bool {
    match words.0 {
        "calls" => return system.were(words.1),
        "medium" => return are(&system.file.stored, words.1),
        "stop" => system.calls_left = number(words.1),
        "fail" => system.failing = Some((call_of(words.1), ErrorKind::Other)),
        "refuse" => system.failing = Some((call_of(words.1), ErrorKind::PermissionDenied)),
        "still" => system.failing = Some((call_of(words.1), ErrorKind::ReadOnlyFilesystem)),
        "short" => system.is_short = true,
        "cut" => system.cut(),
        "tear" => system.tear(),
        "eager" => system.is_eager = true,
        _ => of_others(system, words),
    }
    true
}

/// Makes the step as something that others do to the files.
fn of_others(system: &mut System, words: (&str, &str, &str, &str)) {
    match words.0 {
        "has" => system.has(bytes_of(words.1)),
        "left" => system.next = Some(Medium::of(bytes_of(words.1))),
        "other" => {
            let (at, bytes) = written_by(words);
            system
                .file
                .write(at, &bytes.all[..bytes.len.min(bytes.all.len())]);
        }
        "meanwhile" => system.meanwhile = Some(written_by(words)),
        "made" => system.made = Some(bytes_of(words.1)),
        "overtaken" => system.is_overtaken = true,
        "held" => system.is_held = true,
        "replaced" => system.number = system.number.saturating_add(1),
        "removed" => system.is_there = false,
        "link" => system.is_link = true,
        _ => {}
    }
}

/// Where another program writes, and what.
fn written_by(words: (&str, &str, &str, &str)) -> (usize, Bytes) {
    let at = usize::try_from(number(words.1)).unwrap_or(0);
    (at, bytes_of(words.2))
}

/// The first four words of a step.
fn words_of(step: &str) -> (&str, &str, &str, &str) {
    let mut words = step.split(' ');
    let first = words.next().unwrap_or("");
    let second = words.next().unwrap_or("");
    let third = words.next().unwrap_or("");
    let fourth = words.next().unwrap_or("");
    (first, second, third, fourth)
}

/// How the next program opens the file, if the step says that one does.
fn access_of(step: &str) -> Option<Access> {
    match step {
        "again" | "cut" | "tear" => Some(Access::Write),
        "resume" => Some(Access::Continue),
        "look" => Some(Access::Look),
        _ => None,
    }
}

/// Whether all steps of a row are as it says.
fn holds(cell: &Cell<System>, row: &str) -> bool {
    let mut disk = FileDisk::new(FakeFolder { system: cell }, NAME, Access::Write);
    for step in row.split(", ") {
        let words = words_of(step);
        let is_right = match of_disk(&mut disk, words) {
            Some(is_right) => is_right,
            None => {
                let mut system = cell.get();
                let is_right = of_system(&mut system, words);
                cell.set(system);
                is_right
            }
        };
        if !is_right {
            return false;
        }
        if let Some(access) = access_of(words.0) {
            disk = FileDisk::new(FakeFolder { system: cell }, NAME, access);
        }
    }
    true
}

#[test]
fn what_was_acknowledged_is_on_the_medium(rt: HostRuntime) -> Result<(), Fail> {
    for row in ROWS.lines() {
        let cell = Cell::new(new_system());
        assert!(rt; holds(&cell, row), "{row}");
    }
    Ok(())
}
