//! The call that the program makes: words in, text and status out. Each command has its own module
//! beside this one; `perform` and `perform_no_run` (returning.rt) say which, and a new command needs
//! its arm in one of them.
ghost use Rattle.std.specs.Prelude.{◌≡◌, map};
ghost use Rattle.std.specs.String.{string_bytes};
ghost use Rattle.lathe_top.specs.Done.{GetsItsStatus, IsDone, Performs, top_state, call_of};
ghost use Rattle.lathe_top.specs.Held.{lathe_of, lathe_left};
ghost use Rattle.lathe_top.specs.Lathe.{lathe_at, lathe_after};

use crate::beginning::run;
use crate::held::{Ended, Lathe};
use crate::making::make;
use crate::outcome::Outcome;
use crate::resuming::resume;
use crate::returning::{names_of, perform_no_run};
use clap_reading::read_words;
use command_words::{Command, WordsFault};
use disk_model::Disk;
use lathe_calls::Status;
use lathe_looks::tell_usage;
use nc_number::Both;
use nc_outside::{Shelf, Sink, Turret};
use nc_restart::{a_machine_hangs_on_its_texts, an_image_stands_for_one_run};
use nc_verify::{accepted_texts_are_not_refused, texts_have_one_refusal};
use run_journal::a_journal_stands_for_one_thing;
use std::alloc::Global;
use std::sync::Wait;
use std::thread::Threads;
use turn_order::one_run_in_turn;
use wait_verify::{accepted_pairs_are_not_refused, pairs_have_one_refusal};

/// Does what the words say with the files of the shelf, the journal on the disk, the second disk
/// and the turrets of both paths, writes the answer to `out`, and gives the status, both disks and
/// the turrets.
///
/// 0: the tapes are accepted, both paths ran to their ends, the edits or the branch were made, or
/// the text was written. 1: the tapes, the settings, the edits or the zones are refused, or there
/// is no such meeting. 2: the words are no command. 3: a path raised an alarm. 4: the shelf failed.
/// 5: the sink failed. 6: a disk failed. 7: the turret of a path failed. 8: for `run` and `make`
/// there is a run on the disk; for `resume`, `edit`, `branch`, `moves`, `state`, and `zones` without
/// a pair, there is none; for `branch` there is one on the second disk. 9: the journal on the disk is bad. 10: as
/// many records were made as the call allows. 12: out of memory, or a thread was refused. 13: a
/// file is missing or too long. 14: the journal has as many records as it may have, or for `edit`
/// no room for the edits. Of 6, 7, 3, 0, 14 and 10 the first is answered that holds of a run.
///
/// `branch` alone calls the second disk. `run`, `make` and `resume` run both paths at once, in four
/// threads, and wait for them. If a thread is refused after they were tried, the call may not
/// return.
pub fn top<R, H, D, E, T, K>(
    rt: &R,
    alloc: Global,
    words: &[String],
    shelf: &mut H,
    disk: D,
    second: E,
    left: T,
    right: T,
    out: &mut K,
) -> Outcome<D, E, T>
where
    R: Threads + Wait + Sync,
    H: Shelf,
    D: Disk + Drop + Send,
    E: Disk,
    T: Turret + Send,
    K: Sink,
    // What was told and its status, each for its cause; what both disks are now, and what a stop at
    // any moment leaves of them; and what the turrets got. All of one command and of the texts of
    // its files, whatever the status.
    ensures done { IsDone D.state E.state (call_of (map string_bytes words.now)
        (top_state (H.state shelf.old) (lathe_at (D.state disk) (T.state left) (T.state right)) second
        (K.state out.old))
        (top_state (H.state shelf.new) (lathe_after D.state T.state result) result.second
        (K.state out.new))) result.status }
    // If a cause holds, its status comes.
    ensures due { GetsItsStatus D.state E.state (call_of (map string_bytes words.now)
        (top_state (H.state shelf.old) (lathe_at (D.state disk) (T.state left) (T.state right)) second
        (K.state out.old))
        (top_state (H.state shelf.new) (lathe_after D.state T.state result) result.second
        (K.state out.new))) result.status }
{
    accepted_texts_are_not_refused();
    texts_have_one_refusal();
    an_image_stands_for_one_run();
    a_journal_stands_for_one_thing();
    a_machine_hangs_on_its_texts();
    one_run_in_turn();
    accepted_pairs_are_not_refused();
    pairs_have_one_refusal();
    let turrets = Both {
        one: left,
        two: right,
    };
    let lathe = Lathe { disk, turrets };
    let (ended, second) = respond(rt, alloc, words, shelf, lathe, second, out);
    let Ended {
        status,
        lathe: Lathe { disk, turrets },
        missed,
    } = ended;
    let Both {
        one: left,
        two: right,
    } = turrets;
    Outcome {
        status,
        disk,
        second,
        left,
        right,
        missed,
    }
}

/// Does what the words say, and gives how it ended and the second disk.
fn respond<R, H, D, E, T, K>(
    rt: &R,
    alloc: Global,
    words: &[String],
    shelf: &mut H,
    lathe: Lathe<D, T>,
    second: E,
    out: &mut K,
) -> (Ended<D, T>, E)
where
    R: Threads + Wait + Sync,
    H: Shelf,
    D: Disk + Drop + Send,
    E: Disk,
    T: Turret + Send,
    K: Sink,
    ensures { IsDone D.state E.state (call_of (map string_bytes words.now)
        (top_state (H.state shelf.old) (lathe_of D.state T.state lathe) second (K.state out.old))
        (top_state (H.state shelf.new) (lathe_left D.state T.state result.0) result.1
        (K.state out.new))) result.0.status }
{
    match read_words(alloc, words) {
        Ok(command) => perform(rt, alloc, &command, shelf, lathe, second, out),
        Err(WordsFault::Usage) => (Ended::at_rest(tell_usage(out), lathe), second),
        Err(WordsFault::NoMemory) => (Ended::at_rest(Status::NoMemory as u8, lathe), second),
    }
}

/// Does what a command says. The second disk is given back untouched unless the command branches.
fn perform<R, H, D, E, T, K>(
    rt: &R,
    alloc: Global,
    command: &Command,
    shelf: &mut H,
    lathe: Lathe<D, T>,
    second: E,
    out: &mut K,
) -> (Ended<D, T>, E)
where
    R: Threads + Wait + Sync,
    H: Shelf,
    D: Disk + Drop + Send,
    E: Disk,
    T: Turret + Send,
    K: Sink,
    ensures { Performs D.state E.state command.now
        (top_state (H.state shelf.old) (lathe_of D.state T.state lathe) second (K.state out.old))
        (top_state (H.state shelf.new) (lathe_left D.state T.state result.0) result.1
        (K.state out.new)) result.0.status }
{
    match command {
        Command::Run(left, right, settings, blocks, _) => {
            let names = names_of(left, right, settings);
            (run(rt, alloc, &names, *blocks, shelf, lathe, out), second)
        }
        Command::Resume(blocks, _) => (resume(rt, alloc, *blocks, lathe, out), second),
        Command::Make(number, _) => (make(rt, alloc, *number, lathe, out), second),
        _ => perform_no_run(alloc, command, shelf, lathe, second, out),
    }
}
