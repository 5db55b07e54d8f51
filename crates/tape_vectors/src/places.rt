//! Tests of places (block_order) and of a flow (tape_flow): the steps of a place, and what a flow
//! says of a place and of its blocks.
use crate::call::{Call, call_of};
use crate::tape::read;
use block_order::Place;
use cell_settings::read_settings;
use std::alloc::{AllocError, Global};
use std::process::Abort;
use std::test::Fail;
use tape_flow::{Flow, compile};

/// The tape whose flow is asked.
const TAPE: &str = "%~O1~M101~M98 P2~G00~M99~O2~M102~M99~O3~M99~%~";

/// A step of the place and where it stands then: the open calls, and the program, the block and the
/// repeats left of the running frame. Or a question of the place, of the flow, or of a block of it,
/// by its program and its index, and the answer.
const ROWS: &str = "\
start 1 = 0 1 0 0
next = 0 1 1 0
call 2 3 = 1 2 0 2
to 4 = 1 2 4 2
back = 1 2 0 1
back = 1 2 0 0
back = 0 1 2 0
back = 0 1 0 0
start 1 = 0 1 0 0
call 3 9 = 1 3 0 8
backto 7 = 0 1 7 0
backto 5 = 0 1 5 0
start 1 = 0 1 0 0
call 2 1 = 1 2 0 0
call 3 1 = 2 3 0 0
call 4 1 = 3 4 0 0
call 5 1 = 4 5 0 0
call 6 1 = 5 6 0 0
call 7 1 = 6 7 0 0
call 8 1 = 7 8 0 0
call 9 1 = 8 9 0 0
call 10 1 = refused
stay = 8 9 0 0
frame 8 = Some(Frame { program: 1, block: 0, left: 0 })
frame 9 = None
main = 1
block 1 3 = Some(6)
block 1 4 = None
block 4 0 = None
mark 1 0 = Some(Wait(101))
mark 1 1 = Some(Call { program: 2, repeats: 1 })
mark 1 2 = None
mark 1 3 = Some(Back)
mark 1 4 = Some(Past)
mark 1 5 = None
mark 3 0 = None
mark 3 1 = Some(Past)
mark 4 0 = None
begin = 0 1 0 0
label = Some(Wait(101))
line = 3
to 3 = 0 1 3 0
label = Some(Again)
line = 6
to 4 = 0 1 4 0
label = Some(Off)
line = 6
to 1 = 0 1 1 0
label = None
call 2 1 = 1 2 0 0
label = Some(Wait(102))
line = 8
to 1 = 1 2 1 0
label = None
to 2 = 1 2 2 0
label = Some(Off)
line = 9";

/// Opens a call. Whether there was room for it: the running block is below 99, the call runs its
/// program, and fewer than eight are open.
fn opens(place: &mut Place, program: u16, repeats: u16) -> bool {
    repeats > 0 && place.running().block < 99 && place.call(program, repeats).is_ok()
}

/// Goes to the next block, if the running one is below 99; whether it is.
fn goes_on(place: &mut Place) -> bool {
    if place.running().block < 99 {
        place.next();
        true
    } else {
        false
    }
}

/// Makes the step that the call names, if it names one. The answer is whether it was not refused.
fn step(place: &mut Place, flow: &Flow, call: Call) -> bool {
    match call.name {
        "begin" => *place = flow.start(),
        "start" => *place = Place::start(call.first),
        "next" => return goes_on(place),
        "to" => place.to(u32::from(call.first)),
        "call" => return opens(place, call.first, call.second),
        "back" => place.back(),
        "backto" => place.back_to(u32::from(call.first)),
        _ => {}
    }
    true
}

/// How many calls are open, and the program, the block and the repeats left of the running frame.
fn shown(alloc: Global, place: &Place) -> Result<String, AllocError> {
    let frame = place.running();
    let (depth, program, block, left) = (place.depth(), frame.program, frame.block, frame.left);
    format!(in alloc; "{depth} {program} {block} {left}")
}

/// The line of a block of the flow, if there is such a block.
fn line_of(flow: &Flow, program: u16, block: u32) -> Option<u32> {
    match flow.block(program, block) {
        Some(block) => Some(block.line),
        None => None,
    }
}

/// What the place or the flow answers to a question; for a step, where the place stands then.
fn told(alloc: Global, flow: &Flow, place: &Place, call: Call) -> Result<String, AllocError> {
    let (program, block) = (call.first, u32::from(call.second));
    match call.name {
        "main" => format!(in alloc; "{}", flow.main()),
        "block" => format!(in alloc; "{:?}", line_of(flow, program, block)),
        "mark" => format!(in alloc; "{:?}", flow.mark(program, block)),
        "label" => format!(in alloc; "{:?}", flow.label(place)),
        "line" => format!(in alloc; "{}", flow.line(place)),
        "frame" => format!(in alloc; "{:?}", place.frame(usize::from(program))),
        _ => shown(alloc, place),
    }
}

/// What a row's step or question comes to.
fn answer(alloc: Global, flow: &Flow, place: &mut Place, call: Call) -> Result<String, AllocError> {
    if step(place, flow, call) {
        told(alloc, flow, place, call)
    } else {
        String::from_str(alloc, "refused")
    }
}

/// Whether a row holds of the place as the rows before left it.
fn holds(alloc: Global, flow: &Flow, place: &mut Place, row: &str) -> Result<bool, AllocError> {
    let (call, wanted) = row.split_once(" = ").unwrap_or((row, ""));
    let got = answer(alloc, flow, place, call_of(call))?;
    Ok(got.as_str() == wanted)
}

/// Makes each row's step, or asks its question, one after another on one place.
fn walk(rt: &impl Abort, alloc: Global, flow: &Flow) -> Result<(), Fail> {
    let mut place = flow.start();
    for row in ROWS.lines() {
        assert!(rt; holds(alloc, flow, &mut place, row)?, "{row}");
    }
    Ok(())
}

#[test]
fn where_a_step_leads_and_what_is_there(rt: HostRuntime) -> Result<(), Fail> {
    let settings = read_settings(rt.alloc(), b"").expect(&rt, "settings");
    let tape = read(rt.alloc(), TAPE).expect(&rt, "a tape");
    let flow = compile(rt.alloc(), &tape, &settings).expect(&rt, "a flow");
    walk(&rt, rt.alloc(), &flow)
}
