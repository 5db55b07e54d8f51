//! The command `make`: the made pair of a number, run with a new journal. The tapes of a number
//! come from crate `tape_maker`; the settings are empty.
//! For control.rt of this crate.
ghost use Rattle.lathe_calls.specs.Answers.{Ends};
ghost use Rattle.lathe_top.specs.Held.{lathe_of, lathe_left};
ghost use Rattle.lathe_top.specs.Made.{made_limit, made_text, made_texts};
ghost use Rattle.lathe_top.specs.Ran.{IsRun};

use crate::beginning::run_texts;
use crate::held::{Ended, Lathe};
use crate::telling::{Request, Telling};
use disk_model::Disk;
use lathe_calls::Status;
use lathe_looks::Texts;
use nc_number::Both;
use nc_outside::{Sink, Turret};
use std::alloc::Global;
use std::sync::Wait;
use std::thread::Threads;
use tape_maker::make_tapes;

/// The most records that a made pair makes in a call.
const MADE_LIMIT: u32 = 100_000;

/// Runs the made pair of this number, with a new journal on the disk. Writes the summary if both
/// paths end, and else the report, or why there is none.
pub(crate) fn make<R, D, T, K>(
    rt: &R,
    alloc: Global,
    number: u32,
    lathe: Lathe<D, T>,
    out: &mut K,
) -> Ended<D, T>
where
    R: Threads + Wait + Sync,
    D: Disk + Drop + Send,
    T: Turret + Send,
    K: Sink,
    ensures { Ends (IsRun D.state made_limit (made_text number) (made_texts number)
        (lathe_of D.state T.state lathe) (lathe_left D.state T.state result))
        (K.state out.old) (K.state out.new) result.status }
{
    let asked = Request {
        limit: MADE_LIMIT,
        telling: Telling::Summary(number),
    };
    match make_tapes(alloc, number) {
        Ok((one, two)) => {
            let texts = Texts {
                tapes: Both { one, two },
                settings: Vec::new(alloc),
            };
            run_texts(rt, alloc, texts, asked, lathe, out)
        }
        Err(_) => Ended::at_rest(Status::NoMemory as u8, lathe),
    }
}
