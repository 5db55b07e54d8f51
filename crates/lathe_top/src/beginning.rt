//! The command `run`: a pair that is run from its beginning, with a new journal. What it answers is
//! in specs/Ran.antt (`IsRunAnew`). How the run goes on is in going.rt.
//! For control.rt and making.rt of this crate.
ghost use Rattle.std.specs.Prelude.{◌≡◌, ◌≤◌, length};
ghost use Rattle.lathe_calls.specs.Answers.{Ends};
ghost use Rattle.lathe_calls.specs.declared.pair_texts.TheConstants.{LONGEST_SETTINGS};
ghost use Rattle.lathe_looks.specs.Named.{pair_texts};
ghost use Rattle.lathe_looks.specs.Texts.{files_in, texts_of};
ghost use Rattle.lathe_top.specs.Held.{lathe_of, lathe_left};
ghost use Rattle.lathe_top.specs.OverFiles.{IsOverFiles};
ghost use Rattle.lathe_top.specs.Ran.{IsRun, IsRunAnew};
ghost use Rattle.lathe_top.specs.Texts.{text_by};
ghost use Rattle.nc_number.specs.declared.limits.TheConstants.{LONGEST_TAPE};
ghost use Rattle.nc_restart.specs.Pair.{texts_of as texts_of_header, IsPairOf};
ghost use Rattle.run_records.specs.declared.version.Version.{Version};
ghost use Rattle.run_records.specs.Headers.{IsShort};

use crate::going::go_on;
use crate::held::{Ended, Lathe};
use crate::refusing::tell_unbegun;
use crate::telling::{Request, Telling};
use disk_model::Disk;
use lathe_calls::refuse;
use lathe_looks::{FileNames, Texts, fetch_texts, tell_unfetched};
use nc_number::{Both, ByteList};
use nc_outside::{Shelf, Sink, Turret};
use nc_restart::no_history_is_stuck;
use nc_verify::{Verified, verdict};
use run_records::{Header, Version};
use run_table::Table;
use std::alloc::Global;
use std::sync::Wait;
use std::thread::Threads;

/// Runs the two tapes of these files under the settings of the cell, for at most `limit` records,
/// with a new journal on the disk. Writes the report, or why there is none.
pub(crate) fn run<R, H, D, T, K>(
    rt: &R,
    alloc: Global,
    names: &FileNames<'_>,
    limit: u32,
    shelf: &mut H,
    lathe: Lathe<D, T>,
    out: &mut K,
) -> Ended<D, T>
where
    R: Threads + Wait + Sync,
    H: Shelf,
    D: Disk + Drop + Send,
    T: Turret + Send,
    K: Sink,
    ensures { Ends (IsOverFiles pair_texts (files_in names.now) (IsRunAnew D.state limit)
        (lathe_of D.state T.state lathe) (lathe_left D.state T.state result) (H.state shelf.old) (H.state shelf.new))
        (K.state out.old) (K.state out.new) result.status }
{
    let asked = Request {
        limit,
        telling: Telling::Report,
    };
    match fetch_texts(alloc, shelf, names) {
        Ok(texts) => run_texts(rt, alloc, texts, asked, lathe, out),
        Err(error) => {
            let status = tell_unfetched(alloc, &error, out);
            Ended::at_rest(status, lathe)
        }
    }
}

/// Runs the tapes of these texts, if the pair is accepted. Else it writes the refusal, or nothing
/// if memory ran out for the verdict, and neither the disk nor a turret is called.
pub(crate) fn run_texts<R, D, T, K>(
    rt: &R,
    alloc: Global,
    texts: Texts,
    asked: Request,
    lathe: Lathe<D, T>,
    out: &mut K,
) -> Ended<D, T>
where
    R: Threads + Wait + Sync,
    D: Disk + Drop + Send,
    T: Turret + Send,
    K: Sink,
    requires left { length texts.tapes.one.items ≤ LONGEST_TAPE }
    requires right { length texts.tapes.two.items ≤ LONGEST_TAPE }
    requires settings { length texts.settings.items ≤ LONGEST_SETTINGS }
    ensures { Ends (IsRun D.state asked.limit (text_by asked.telling) (texts_of texts)
        (lathe_of D.state T.state lathe) (lathe_left D.state T.state result))
        (K.state out.old) (K.state out.new) result.status }
{
    match verdict(
        alloc,
        texts.tapes.one.as_slice(),
        texts.tapes.two.as_slice(),
        texts.settings.as_slice(),
    ) {
        Ok(pair) => run_pair(rt, alloc, pair, header_of(texts), asked, lathe, out),
        Err(error) => {
            let status = refuse(&error, out);
            Ended::at_rest(status, lathe)
        }
    }
}

/// The header of a new journal over these texts.
fn header_of(texts: Texts) -> Header
    ensures version { result.version ≡ Version.Two }
    ensures settings { result.settings ≡ texts.settings.items }
    ensures left { result.left ≡ texts.tapes.one.items }
    ensures right { result.right ≡ texts.tapes.two.items }
{
    let Texts { tapes, settings } = texts;
    let Both { one, two } = tapes;
    Header {
        version: Version::Two,
        settings: ByteList::of(settings),
        left: ByteList::of(one),
        right: ByteList::of(two),
    }
}

/// Begins a journal with this header and runs the pair with both turrets. Gives the status, the
/// disk and the turrets. If no journal is begun, no turret is called.
fn run_pair<R, D, T, K>(
    rt: &R,
    alloc: Global,
    pair: Verified,
    header: Header,
    asked: Request,
    lathe: Lathe<D, T>,
    out: &mut K,
) -> Ended<D, T>
where
    R: Threads + Wait + Sync,
    D: Disk + Drop + Send,
    T: Turret + Send,
    K: Sink,
    requires accepted { IsPairOf (texts_of_header header) pair }
    requires short { IsShort header }
    requires version { header.version ≡ Version.Two }
    ensures { Ends (IsRun D.state asked.limit (text_by asked.telling) (texts_of_header header)
        (lathe_of D.state T.state lathe) (lathe_left D.state T.state result))
        (K.state out.old) (K.state out.new) result.status }
{
    no_history_is_stuck();
    let Lathe { disk, turrets } = lathe;
    match Table::begin(alloc, pair, disk, &header) {
        Ok(table) => go_on(rt, alloc, table, asked, turrets, out),
        Err((disk, fault)) => Ended::at_rest(tell_unbegun(fault, out), Lathe { disk, turrets }),
    }
}
