//! What is asked of a run, and what is told of it at its end. The texts themselves are written by
//! crate `move_list`.
//! For beginning.rt, editing.rt, going.rt, making.rt and resuming.rt of this crate.
ghost use Rattle.std.specs.Prelude.{◌≡◌, ◌≤◌, length};
ghost use Rattle.nc_verify.specs.Printed.{IsPut};
ghost use Rattle.two_path.specs.Histories.{IsLegal};
ghost use Rattle.nc_restart.specs.Pair.{tapes_in, opening_of};
ghost use Rattle.lathe_calls.specs.Answers.{Ends, IsJust, tells};
ghost use Rattle.lathe_calls.specs.Statuses.{reason_status};
ghost use Rattle.lathe_top.specs.Made.{is_done, made_text};
ghost use Rattle.lathe_top.specs.Texts.{text_by};

use lathe_calls::{reason_status, status_behind};
use move_list::{write_report, write_summary};
use nc_outside::{PutFault, Reason, Sink};
use nc_verify::Verified;
use run_records::EntryList;
use std::alloc::Global;

/// What is told of a run that has ended.
#[derive(Clone, Copy, Debug, PartialEq, Eq)]
pub(crate) enum Telling {
    /// The report of its history.
    Report,
    /// If both paths have ended the summary of the made pair of this number, and else the
    /// report.
    Summary(u32),
}

/// What is asked of a run: that it makes `limit` records at most, and what is told of it then.
#[derive(Clone, Copy, Debug)]
pub(crate) struct Request {
    /// The most records that this call may make.
    pub limit: u32,
    /// What is told of the run at its end.
    pub telling: Telling,
}

/// Writes what is told of a history, and gives the status of the reason for which its run ended.
pub(crate) fn tell_end<K: Sink>(
    alloc: Global,
    telling: Telling,
    verified: &Verified,
    entries: &EntryList,
    reason: Reason,
    out: &mut K,
) -> u8
    requires legal { IsLegal (tapes_in verified.now) (opening_of verified.now) entries.now.items }
    requires few { length entries.now.items ≤ verified.now.settings.records }
    ensures { Ends (IsJust (tells (reason_status reason) (text_by telling verified.now entries.now.items reason)))
        (K.state out.old) (K.state out.new) result }
{
    let status = reason_status(&reason);
    status_behind(
        put_end(alloc, telling, verified, entries, reason, out),
        status,
    )
}

/// Puts the text that is asked for of a history.
fn put_end<K: Sink>(
    alloc: Global,
    telling: Telling,
    verified: &Verified,
    entries: &EntryList,
    reason: Reason,
    out: &mut K,
) -> Result<(), PutFault>
    requires legal { IsLegal (tapes_in verified.now) (opening_of verified.now) entries.now.items }
    requires few { length entries.now.items ≤ verified.now.settings.records }
    ensures { IsPut (K.state out.old) (K.state out.new)
        (text_by telling verified.now entries.now.items reason) result }
{
    match telling {
        Telling::Report => write_report(alloc, verified, entries, reason, out),
        Telling::Summary(number) => put_made(alloc, number, verified, entries, reason, out),
    }
}

/// Puts the summary of a history of the made pair of this number if both paths have ended, and else
/// its report.
fn put_made<K: Sink>(
    alloc: Global,
    number: u32,
    verified: &Verified,
    entries: &EntryList,
    reason: Reason,
    out: &mut K,
) -> Result<(), PutFault>
    requires legal { IsLegal (tapes_in verified.now) (opening_of verified.now) entries.now.items }
    requires few { length entries.now.items ≤ verified.now.settings.records }
    ensures { IsPut (K.state out.old) (K.state out.new)
        (made_text number verified.now entries.now.items reason) result }
{
    if is_done(&reason) {
        write_summary(alloc, number, verified, entries, out)
    } else {
        write_report(alloc, verified, entries, reason, out)
    }
}

/// Whether a run ended for this reason because both paths have ended.
fn is_done(reason: &Reason) -> bool
    ensures { result ≡ is_done reason.now }
{
    match reason {
        Reason::Done => true,
        Reason::Alarm(_) => false,
        Reason::Stopped => false,
        Reason::Full => false,
        Reason::DiskFault => false,
        Reason::TurretFault(_) => false,
    }
}
