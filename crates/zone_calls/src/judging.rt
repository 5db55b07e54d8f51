//! What is answered to three texts and a text of zones: into a sink (`tell_zones`), or into a
//! caller's room (`answer_zones`).
ghost use Rattle.std.specs.Prelude.{◌≡◌, ◌<◌, ◌^◌, length};
ghost use Rattle.lathe_calls.specs.Answers.{Ends, IsJust, tells};
ghost use Rattle.lathe_calls.specs.Due.{IsOfPair};
ghost use Rattle.lathe_calls.specs.Statuses as exit;
ghost use Rattle.lathe_calls.specs.Texts.{texts_of};
ghost use Rattle.zone_calls.specs.Due.{AreZones, AreZonesOf, AreZonesSaid};
ghost use Rattle.zone_calls.specs.Zoned.{bad_zone_text};

use crate::putting::tell_plan;
use lathe_calls::{
    LONGEST_SETTINGS, PairTexts, Said, Status, TextSink, hand_text, refuse, write_text,
};
use nc_number::{Cause, Failing};
use nc_outside::Sink;
use nc_verify::{Verified, verdict};
use std::alloc::Global;
use text_pieces::refused_at;
use turn_order::records_in_turn;
use zone_cell::{Plan, ZoneFault, read_plan};

/// Writes the line of the refusal for this fault of a text of zones, and gives the exit status.
pub fn tell_bad_zone<K: Sink>(fault: ZoneFault, out: &mut K) -> u8
    ensures { Ends (IsJust (tells exit.refused (bad_zone_text fault.line))) (K.state out.old) (K.state out.new) result }
{
    write_text(
        out,
        refused_at(Cause::BadZone, fault.line).as_slice(),
        Status::Refused as u8,
    )
}

/// Writes what is asked for of the run of a pair, and gives its status.
fn judge_run<K: Sink>(alloc: Global, pair: &Verified, plan: &Plan, limit: u32, out: &mut K) -> u8
    ensures { Ends (AreZonesOf limit plan.now pair.now) (K.state out.old) (K.state out.new) result }
{
    match records_in_turn(alloc, pair, limit) {
        Ok(run) => tell_plan(alloc, plan, pair, &run.entries, &run.end, out),
        Err(_) => Status::NoMemory as u8,
    }
}

/// Writes what is asked for of the run of the texts, or their refusal, and gives the status.
fn judge_texts<K: Sink>(
    alloc: Global,
    texts: &PairTexts<'_>,
    plan: &Plan,
    limit: u32,
    out: &mut K,
) -> u8
    requires { length texts.now.settings.now < 2 ^ 32 }
    ensures { Ends (IsOfPair (AreZonesOf limit plan.now) (texts_of texts.now))
        (K.state out.old) (K.state out.new) result }
{
    match verdict(alloc, texts.left, texts.right, texts.settings) {
        Ok(pair) => judge_run(alloc, &pair, plan, limit, out),
        Err(error) => refuse(&error, out),
    }
}

/// Writes what a text of zones asks for of the run of three texts whose paths take turns, of at
/// most `limit` records, and gives the status: 0; 1 if the zones, a tape or the settings are
/// refused, the zones first; 5 if the sink failed; or 12 if memory ran out.
pub fn tell_zones<K: Sink>(
    alloc: Global,
    texts: &PairTexts<'_>,
    zones: &[u8],
    limit: u32,
    out: &mut K,
) -> u8
    requires settings { length texts.now.settings.now < 2 ^ 32 }
    requires zones { length zones.now < 2 ^ 32 }
    ensures { Ends (AreZones limit zones.now (texts_of texts.now)) (K.state out.old) (K.state out.new) result }
{
    match read_plan(alloc, zones) {
        Ok(plan) => judge_texts(alloc, texts, &plan, limit, out),
        Err(Failing::Fault(fault)) => tell_bad_zone(fault, out),
        Err(Failing::NoMemory) => Status::NoMemory as u8,
    }
}

/// Answers what a text of zones asks for of the run of three texts: the front of the text that is
/// due goes into the room, and what lies behind it there stays as it was.
///
/// The status is 0 or 1 with a text. Without one it is 12 if memory ran out, or 13 if a text is
/// longer than a file of its kind may be.
pub fn answer_zones(
    alloc: Global,
    texts: &PairTexts<'_>,
    zones: &[u8],
    limit: u32,
    room: &mut [u8],
) -> Said
    ensures { AreZonesSaid limit zones.now (texts_of texts.now) room.old room.new result }
{
    if !(texts.are_fit() && zones.len() <= LONGEST_SETTINGS) {
        return Said::nothing(Status::NoFile as u8);
    }
    let mut text = TextSink::empty(alloc);
    let status = tell_zones(alloc, texts, zones, limit, &mut text);
    hand_text(status, text.as_slice(), room)
}
