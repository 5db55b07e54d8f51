//! The events of a run in the order of turns that the caller gives, and what is due if the texts or
//! the order are no good.
ghost use Rattle.std.specs.Prelude.{◌≡◌, true, [], ◌++◌, IfOk, OnOk, map};
ghost use Rattle.nc_number.specs.declared.fault.Failing.TheVariants.{Fault};
ghost use Rattle.two_path.specs.Turns.{tapes_of};
ghost use Rattle.two_path.specs.Start.{machine_at_start};
ghost use Rattle.lathe_calls.specs.Statuses as exit;
ghost use Rattle.lathe_calls.specs.Texts.{are_fit, texts_of};
ghost use Rattle.lathe_calls.specs.Order.{AreDue, AreEventsFrom, AreEventsOf, AreToldOf, first_events, path_at, path_begins};

use crate::ending::{Status, reason_status};
use crate::event::{Event, begin_stamp, home_event, placed_event, shift_event};
use crate::handing::hand_events;
use crate::listing::push_event;
use crate::ordering::{end_after, give_turns, is_order};
use crate::pair_texts::PairTexts;
use crate::said::Said;
use cell_settings::Settings;
use nc_number::{Both, Failing, NoMemory, Path, Point};
use nc_verify::{Refusal, Verified, verdict};
use path_state::PathState;
use std::alloc::Global;
use tape_flow::Flow;
use trace_list::{homes_of, look_of};
use two_path::{Machine, a_machine_begins_without_waits, histories_are_runs};

/// Events, and the status that goes with them.
#[derive(Drop)]
struct Happened {
    /// The status.
    status: u8,
    /// The events, in order.
    list: Vec<Event>,
}

/// No events, and this status.
fn nothing_happened(alloc: Global, status: u8) -> Happened
    ensures status { result.status ≡ status }
    ensures list { result.list.items ≡ [] }
{
    Happened {
        status,
        list: Vec::new(alloc),
    }
}

/// Lists how a path begins that comes home at this point.
fn push_begin(
    list: &mut Vec<Event>,
    path: Path,
    at: &PathState,
    home: Point,
) -> Result<(), NoMemory>
    requires { home ≡ at.now.fixed.home }
    ensures { OnOk result (list.new.items ≡ list.old.items ++ path_begins path at.now) }
{
    push_event(list, placed_event(path, at.position()))?;
    push_event(list, home_event(path, home))?;
    push_event(list, shift_event(begin_stamp(path), look_of(at).shift))
}

/// The first events: how both paths begin.
fn first_events(
    alloc: Global,
    machine: &Machine,
    homes: Both<Point>,
) -> Result<Vec<Event>, NoMemory>
    requires one { homes.one ≡ machine.now.machine.paths.one.path.fixed.home }
    requires two { homes.two ≡ machine.now.machine.paths.two.path.fixed.home }
    ensures { IfOk result (λ list. list.items ≡ first_events machine.now.machine) }
{
    let mut list = Vec::new(alloc);
    push_begin(&mut list, Path::One, machine.path(Path::One), homes.one)?;
    push_begin(&mut list, Path::Two, machine.path(Path::Two), homes.two)?;
    Ok(list)
}

/// The events of two flows whose paths get their turns in this order.
fn events_in(
    alloc: Global,
    left: &Flow,
    right: &Flow,
    settings: &Settings,
    order: &[u8],
) -> Result<Happened, NoMemory>
    ensures { IfOk result (λ happened. AreEventsFrom (tapes_of left.now right.now)
        (machine_at_start left.now right.now settings.now) settings.now.records
        (map path_at order.now) happened.status happened.list.items) }
{
    histories_are_runs();
    a_machine_begins_without_waits();
    let mut machine = Machine::new(alloc, left, right, settings)?;
    let mut list = first_events(alloc, &machine, homes_of(settings))?;
    give_turns(
        &mut list,
        &mut machine,
        left,
        right,
        settings.records,
        order,
    )?;
    let status = reason_status(&end_after(&machine, settings.records));
    Ok(Happened { status, list })
}

/// The events of a pair whose paths get their turns in this order.
fn events_of(alloc: Global, pair: &Verified, order: &[u8]) -> Result<Happened, NoMemory>
    ensures { IfOk result (λ happened. AreEventsOf pair.now (map path_at order.now)
        happened.status happened.list.items) }
{
    events_in(alloc, pair.left(), pair.right(), pair.settings(), order)
}

/// No events and status 1, since the texts are refused; or memory ran out.
fn refused_events(alloc: Global, error: Failing<Refusal>) -> Result<Happened, NoMemory>
    ensures { IfOk result (λ happened. (happened.status ≡ exit.refused) × (happened.list.items ≡ [])
        × ((refusal : Refusal) × (error ≡ Fault refusal))) }
{
    match error {
        Failing::Fault(refusal) => {
            let _refusal = refusal;
            Ok(nothing_happened(alloc, Status::Refused as u8))
        }
        Failing::NoMemory => Err(NoMemory),
    }
}

/// The events that are due to the texts and an order.
fn events_due(alloc: Global, texts: &PairTexts<'_>, order: &[u8]) -> Result<Happened, NoMemory>
    requires { are_fit (texts_of texts.now) ≡ true }
    ensures { IfOk result (λ happened. AreDue order.now (texts_of texts.now) happened.status happened.list.items) }
{
    if !is_order(order) {
        return Ok(nothing_happened(alloc, Status::Usage as u8));
    }
    match verdict(alloc, texts.left, texts.right, texts.settings) {
        Ok(pair) => events_of(alloc, &pair, order),
        Err(error) => refused_events(alloc, error),
    }
}

/// The events of a pair whose paths get their turns in this order, a byte for each turn, 1 or 2:
/// where both turrets begin, and then what each turn came to. The turn of a path that waits or has
/// ended does nothing, and so do all turns after an alarm. No turn is given once there are as many
/// records as the settings allow.
///
/// Statuses: 0 both paths have ended, 3 an alarm, 10 the order is over, 14 as many records as the
/// settings allow. Without an event: 1 the texts are refused, 2 the order has another byte, 12 out
/// of memory, 13 a text is too long.
pub fn events(alloc: Global, texts: &PairTexts<'_>, order: &[u8], room: &mut [Event]) -> Said
    ensures { AreToldOf order.now (texts_of texts.now) room.old room.new result }
{
    if !texts.are_fit() {
        return Said::nothing(Status::NoFile as u8);
    }
    match events_due(alloc, texts, order) {
        Ok(happened) => hand_events(happened.status, happened.list.as_slice(), room),
        Err(NoMemory) => Said::nothing(Status::NoMemory as u8),
    }
}
