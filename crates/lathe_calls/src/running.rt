//! The texts of the run of a pair whose paths take turns: its report, its trace, and the state of
//! its machine.
//! For this crate alone: answering.rt uses it.
ghost use Rattle.std.specs.Prelude.{◌≤◌, ◌<◌, ◌^◌, length};
ghost use Rattle.nc_number.specs.declared.limits.TheConstants.{MOST_RECORDS};
ghost use Rattle.nc_restart.specs.Pair.{opening_of, tapes_in};
ghost use Rattle.nc_verify.specs.Printed.{IsPut};
ghost use Rattle.two_path.specs.Histories.{IsLegal};
ghost use Rattle.lathe_calls.specs.Answers.{Ends, IsJust, tells};
ghost use Rattle.lathe_calls.specs.Races.{AreRaces};
ghost use Rattle.lathe_calls.specs.Reported.{state_of};
ghost use Rattle.lathe_calls.specs.Statuses as exit;
ghost use Rattle.lathe_calls.specs.Traced.{IsTraceOf, IsTraced, trace_of};
ghost use Rattle.lathe_calls.specs.Due.{IsOfPair, IsReportOf, IsStateOf};
ghost use Rattle.lathe_calls.specs.Texts.{texts_of};

use crate::ending::{Status, reason_status, status_behind};
use crate::judging::refuse;
use crate::machine::machine_behind;
use crate::pair_texts::PairTexts;
use move_list::{write_report, write_state};
use nc_outside::{PutFault, Reason, Sink};
use nc_verify::{Verified, verdict};
use race_report::{RaceList, races, write_races};
use run_records::EntryList;
use std::alloc::Global;
use trace_list::write_trace;
use turn_order::records_in_turn;

/// Writes the report of the run of a pair, and gives its status.
fn report_pair<K: Sink>(alloc: Global, pair: &Verified, limit: u32, out: &mut K) -> u8
    ensures { Ends (IsReportOf limit pair.now) (K.state out.old) (K.state out.new) result }
{
    match records_in_turn(alloc, pair, limit) {
        Ok(run) => {
            let end = &run.end;
            let put = write_report(alloc, pair, &run.entries, *end, out);
            status_behind(put, reason_status(end))
        }
        Err(_) => Status::NoMemory as u8,
    }
}

/// Writes the trace of a history of a pair, and after it the races of the pair.
fn write_traced<K: Sink>(
    alloc: Global,
    pair: &Verified,
    entries: &EntryList,
    end: Reason,
    races: &RaceList,
    out: &mut K,
) -> Result<(), PutFault>
    requires legal { IsLegal (tapes_in pair.now) (opening_of pair.now) entries.now.items }
    requires few { length entries.now.items ≤ MOST_RECORDS }
    ensures { IsPut (K.state out.old) (K.state out.new) (trace_of pair.now entries.now.items end races.now) result }
{
    match write_trace(alloc, pair, entries, end, out) {
        Ok(()) => write_races(races, out),
        Err(fault) => Err(fault),
    }
}

/// Writes the trace of the run of a pair that has these races, and gives its status.
fn trace_with<K: Sink>(
    alloc: Global,
    pair: &Verified,
    limit: u32,
    races: &RaceList,
    out: &mut K,
) -> u8
    requires { AreRaces pair.now races.now }
    ensures { Ends (IsTraceOf limit pair.now) (K.state out.old) (K.state out.new) result }
{
    match records_in_turn(alloc, pair, limit) {
        Ok(run) => {
            let end = &run.end;
            let put = write_traced(alloc, pair, &run.entries, *end, races, out);
            status_behind(put, reason_status(end))
        }
        Err(_) => Status::NoMemory as u8,
    }
}

/// Finds the races of a pair, writes the trace of its run with them, and gives its status.
fn trace_pair<K: Sink>(alloc: Global, pair: &Verified, limit: u32, out: &mut K) -> u8
    ensures { Ends (IsTraceOf limit pair.now) (K.state out.old) (K.state out.new) result }
{
    match races(alloc, pair) {
        Ok(list) => trace_with(alloc, pair, limit, &list, out),
        Err(_) => Status::NoMemory as u8,
    }
}

/// Writes the state of the machine after a history of a pair, and gives its status.
fn show_machine<K: Sink>(alloc: Global, pair: &Verified, entries: &EntryList, out: &mut K) -> u8
    requires legal { IsLegal (tapes_in pair.now) (opening_of pair.now) entries.now.items }
    requires few { length entries.now.items ≤ MOST_RECORDS }
    ensures { Ends (IsJust (tells exit.done (state_of pair.now entries.now.items)))
        (K.state out.old) (K.state out.new) result }
{
    match machine_behind(alloc, pair, entries) {
        Ok(machine) => status_behind(write_state(pair, &machine, out), Status::Done as u8),
        Err(_) => Status::NoMemory as u8,
    }
}

/// Writes the state of the machine after the run of a pair, and gives its status.
fn show_pair<K: Sink>(alloc: Global, pair: &Verified, limit: u32, out: &mut K) -> u8
    ensures { Ends (IsStateOf limit pair.now) (K.state out.old) (K.state out.new) result }
{
    match records_in_turn(alloc, pair, limit) {
        Ok(run) => show_machine(alloc, pair, &run.entries, out),
        Err(_) => Status::NoMemory as u8,
    }
}

/// Writes the report of the run of the texts, or their refusal, and gives the status.
pub(crate) fn report<K: Sink>(alloc: Global, texts: &PairTexts<'_>, limit: u32, out: &mut K) -> u8
    requires { length texts.now.settings.now < 2 ^ 32 }
    ensures { Ends (IsOfPair (IsReportOf limit) (texts_of texts.now)) (K.state out.old) (K.state out.new) result }
{
    match verdict(alloc, texts.left, texts.right, texts.settings) {
        Ok(pair) => report_pair(alloc, &pair, limit, out),
        Err(error) => refuse(&error, out),
    }
}

/// Writes the trace of the run of the texts with the races of their pair, or their refusal, and
/// gives the status.
pub(crate) fn trace<K: Sink>(alloc: Global, texts: &PairTexts<'_>, limit: u32, out: &mut K) -> u8
    requires { length texts.now.settings.now < 2 ^ 32 }
    ensures { Ends (IsTraced limit (texts_of texts.now)) (K.state out.old) (K.state out.new) result }
{
    match verdict(alloc, texts.left, texts.right, texts.settings) {
        Ok(pair) => trace_pair(alloc, &pair, limit, out),
        Err(error) => refuse(&error, out),
    }
}

/// Writes the state of the machine after the run of the texts, or their refusal, and gives the
/// status.
pub(crate) fn show<K: Sink>(alloc: Global, texts: &PairTexts<'_>, limit: u32, out: &mut K) -> u8
    requires { length texts.now.settings.now < 2 ^ 32 }
    ensures { Ends (IsOfPair (IsStateOf limit) (texts_of texts.now)) (K.state out.old) (K.state out.new) result }
{
    match verdict(alloc, texts.left, texts.right, texts.settings) {
        Ok(pair) => show_pair(alloc, &pair, limit, out),
        Err(error) => refuse(&error, out),
    }
}
