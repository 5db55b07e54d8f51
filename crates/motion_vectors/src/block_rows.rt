//! Tests of motion_track and turn_cycles: where the words of a block lead, its moves and its
//! cycles. The rows are worked by hand from the rules of the control.
ghost use Rattle.motion_track.specs.Block.{IsBlockWithin};

use crate::cycles::cycle_holds;
use crate::move_text::{are_moves, is_alarm, is_move, is_reached, move_of};
use crate::words::{axis, centre, feed, length, point, position};
use code_tables::CodeKind;
use motion_track::{
    BlockMotion, LONGEST, MotionFault, arc, centre_of, home, line, return_home, target, thread,
    track,
};
use nc_moves::{Move, MoveList};
use nc_number::Point;

/// The call, where the turret stands, the shift, the words, and what is answered.
///
/// A code is that of a whole block. `target` is where axis words lead, and `leads` where a move
/// does; `cw` and `ccw` are arcs to X and Z; `reference` is the way of X to the reference position
/// by way of a point, `return` that of a block. `pass` is a block with a cycle, behind another that
/// kept its end or none, `end` the end of its cut, and `round` the cycle itself from the start to X
/// and Z.
const ROWS: &str = "\
G00|||X50. Z2. F0.2|rapid X50. Z2.
G01|||X50. Z2. F0.2|feed X50. Z2. F0.2
G00||||no move
G01||||no move
G28||||no move
G53||||no move
G02|||R5.|no move
G01|||X5.|alarm 44
G02|||X5.|alarm 43
G04|||X5.|no move
G02|||I-10. F0.1|cw X0 Z0 I-10. K0 F0.1
G02|||I2. R5. F0.1|cw X0 Z0 R5. F0.1
G02|X20. Z0||X0 Z-10.01 I-10. K0 F0.1|cw X0 Z-10.01 I-10. K0 F0.1
G02|X20. Z0||X0 Z-10.011 I-10. K0 F0.1|alarm 42
G03|X0 Z0||X0 Z-20. R10. F0.1|ccw X0 Z-20. R10. F0.1
G03|X0 Z0||X0 Z-20. R9.999 F0.1|alarm 42
G00|||X99999.999|rapid X99999.999 Z0
G02|||X99999.999|alarm 43
G00|||X100000.|alarm 41
G02|||X100000.|alarm 41
G32|||X100000.|alarm 41
G28|||X100000.|alarm 41
return|X200. Z150.||U0 W0|rapid X200. Z150., rapid X300. Z200.
G53|X32. Z92.|X-20. Z90.|X300.|rapid X300. Z92.
G00|X32. Z92.|X-20. Z90.|X300.|rapid X280. Z92.
G32|||W-30. F1.5|thread X0 Z-30. F1.5
target|X30. Z95.|X-10. Z105.|X46. Z-13.|to X36. Z92.
target|X30. Z95.|X-10. Z105.|W-5.|to X30. Z90.
target|X30. Z95.|X-10. Z105.|X100009.999|to X99999.999 Z95.
target|X30. Z95.|X-10. Z105.|X100010.|alarm 41
reference|X50. Z2.||X60. Z2.|rapid X60. Z2., rapid X300. Z2.
line|||X30. Z95.|alarm 44
thread|||X30. Z95.|alarm 44
line|||X30. Z95. F0.1|feed X30. Z95. F0.1
thread|||X30. Z95. F0.1|thread X30. Z95. F0.1
centre|||I-10. K2. R3.|R3.
centre|||I-10. K2.|I-10. K2.
centre|||I-10.|I-10. K0
centre|||K2.|I0 K2.
centre||||
cw|X20. Z0||X0 Z-10.01 I-10. K0 F0.1|cw X0 Z-10.01 I-10. K0 F0.1
cw|X20. Z0||X0 Z-10.011 I-10. K0 F0.1|alarm 42
cw|X20. Z0||X0 Z-9.99 I-10. K0 F0.1|cw X0 Z-9.99 I-10. K0 F0.1
cw|X20. Z0||X0 Z-9.989 I-10. K0 F0.1|alarm 42
cw|X20. Z0||X20. Z0 I-10. K0 F0.1|cw X20. Z0 I-10. K0 F0.1
cw|||X0 Z-20. R10. F0.1|cw X0 Z-20. R10. F0.1
cw|||X0 Z-20. R9.999 F0.1|alarm 42
cw|||X0 Z-20. R-10. F0.1|cw X0 Z-20. R-10. F0.1
cw|||X0 Z-20.|alarm 43
cw|||X0 Z-20. R9.999|alarm 42
cw|||X0 Z-20. R10.|alarm 44
cw|X100000000000000 Z100000000000000||X-100000000000000 Z-100000000000000 I100000000000000 K-100000000000000 F0.1|alarm 42
cw|X100000000000000 Z100000000000000||X-100000000000000 Z10 I-100000000000000 K0 F0.1|cw X-100000000000000 Z10 I-100000000000000 K0 F0.1
cw|X100000000000000 Z100000000000000||X-100000000000000 Z11 I-100000000000000 K0 F0.1|alarm 42
cw|X100000000000000 Z100000000000000||X-100000000000000 Z-100000000000000 I-50000000000000 K-100000000000000 F0.1|cw X-100000000000000 Z-100000000000000 I-50000000000000 K-100000000000000 F0.1
ccw|X30. Z95.||X36. Z92. R3. F0.1|ccw X36. Z92. R3. F0.1
pass G90|X50. Z2.||X40. Z-20. F0.2|rapid X40. Z2., feed X40. Z-20. F0.2, feed X50. Z-20. F0.2, rapid X50. Z2.; keeps X40. Z-20.
pass G90 kept X40. Z-20.|X50. Z2.||X38. F0.2|rapid X38. Z2., feed X38. Z-20. F0.2, feed X50. Z-20. F0.2, rapid X50. Z2.; keeps X38. Z-20.
pass G90 kept X40. Z-20.|X50. Z2.||U-4. F0.2|rapid X46. Z2., feed X46. Z-20. F0.2, feed X50. Z-20. F0.2, rapid X50. Z2.; keeps X46. Z-20.
end G90|X50. Z2.||U-4.|to X46. Z2.
pass G90|X32. Z92.|X-20. Z90.|X48. Z-30. F0.25|rapid X28. Z92., feed X28. Z60. F0.25, feed X32. Z60. F0.25, rapid X32. Z92.; keeps X28. Z60.
pass G90 kept X28. Z60.|X32. Z92.|X-20. Z90.|X46. F0.25|rapid X26. Z92., feed X26. Z60. F0.25, feed X32. Z60. F0.25, rapid X32. Z92.; keeps X26. Z60.
pass G90|X50. Z2.||X99999.999 F0.2|rapid X99999.999 Z2., feed X99999.999 Z2. F0.2, feed X50. Z2. F0.2, rapid X50. Z2.; keeps X99999.999 Z2.
pass G90|X50. Z2.||X99999.999|alarm 44
pass G90|X50. Z2.||X100000.|alarm 41
pass G90|X50. Z2.||U99949.999 F0.2|rapid X99999.999 Z2., feed X99999.999 Z2. F0.2, feed X50. Z2. F0.2, rapid X50. Z2.; keeps X99999.999 Z2.
pass G90|X50. Z2.||U99950. F0.2|alarm 41
pass G90|X50. Z2.|||no move
pass G90 kept X40. Z-20.|X50. Z2.|||no move; keeps X40. Z-20.
pass G32|X50. Z2.|||no cycle
round G94|X50. Z2.||X40. Z-20. F0.2|rapid X50. Z-20., feed X40. Z-20. F0.2, feed X40. Z2. F0.2, rapid X50. Z2.
round G90|X50. Z2.||X40. Z-20. F0.2|rapid X40. Z2., feed X40. Z-20. F0.2, feed X50. Z-20. F0.2, rapid X50. Z2.
round G92|X50. Z2.||X40. Z-20. F1.5|rapid X40. Z2., thread X40. Z-20. F1.5, rapid X50. Z-20., rapid X50. Z2.
round G92|X50. Z2.||X40. Z-20.|alarm 44
leads|||rapid X50. Z-2.|to X50. Z-2.
leads|||feed X50. Z-2. F0.2|to X50. Z-2.
leads|||thread X50. Z-2. F0.2|to X50. Z-2.
leads|||cw X50. Z-2. R8. F0.2 min|to X50. Z-2.
leads|||dwell 250|nowhere
leads|||speed G96 S200|nowhere
leads|||limit S1800|nowhere
leads|||tool T101|nowhere
leads|||aux M30|nowhere";

/// The reference position.
const HOME: Point = Point {
    x: 300_000,
    z: 200_000,
};

/// The block of these words.
fn block_of(start: &str, shift: &str, words: &str) -> BlockMotion
    ensures { IsBlockWithin LONGEST result }
{
    BlockMotion {
        start: point(start),
        shift: point(shift),
        home: HOME,
        x: axis(words, 'X', 'U'),
        z: axis(words, 'Z', 'W'),
        i: length(words, 'I'),
        k: length(words, 'K'),
        r: length(words, 'R'),
        feed: feed(words),
        per_rev: true,
    }
}

/// The kind of the code that a row names; a name that is none stands for a code that does nothing.
fn code_of(name: &str) -> CodeKind {
    match name {
        "G00" => CodeKind::Rapid,
        "G01" => CodeKind::Feed,
        "G02" => CodeKind::ArcCw,
        "G03" => CodeKind::ArcCcw,
        "G04" => CodeKind::Dwell,
        "G28" => CodeKind::Home,
        "G32" => CodeKind::Thread,
        "G53" => CodeKind::Machine,
        _ => CodeKind::Idle,
    }
}

/// Whether the moves of a block, or its alarm, are as wanted.
fn are_answered(answer: Result<MoveList, MotionFault>, wanted: &str) -> bool {
    match answer {
        Ok(moves) => are_moves(moves.as_slice(), wanted),
        Err(fault) => is_alarm(fault.number, wanted),
    }
}

/// Whether one move, or its alarm, is as wanted.
fn is_answered(answer: Result<Move, MotionFault>, wanted: &str) -> bool {
    match answer {
        Ok(what) => is_move(&what, wanted),
        Err(fault) => is_alarm(fault.number, wanted),
    }
}

/// Whether the move ends at that point, or nowhere.
fn is_led(what: &str, wanted: &str) -> bool {
    match move_of(what) {
        Some(what) if wanted == "nowhere" => what.end().is_none(),
        Some(what) => what.end() == position(wanted),
        None => false,
    }
}

/// Whether the call of a row with this block answers what is wanted.
fn holds(call: &str, block: &BlockMotion, words: &str, wanted: &str) -> bool
    requires { IsBlockWithin LONGEST block.now }
{
    let (at, to, middle, feed) = (block.start, point(words), centre(words), block.feed);
    let (call, code) = call.split_once(' ').unwrap_or((call, ""));
    match call {
        "target" => is_reached(target(at, block.shift, block.x, block.z), wanted),
        "centre" => centre_of(block.i, block.k, block.r) == centre(wanted),
        "line" => is_answered(line(to, feed, true), wanted),
        "thread" => is_answered(thread(to, feed), wanted),
        "cw" => is_answered(arc(at, to, true, middle, feed, true), wanted),
        "ccw" => is_answered(arc(at, to, false, middle, feed, true), wanted),
        "reference" => are_moves(&home(at, to, HOME, true, false), wanted),
        "return" => are_answered(return_home(block), wanted),
        "leads" => is_led(words, wanted),
        "pass" | "round" | "end" => cycle_holds(call, code, block, to, wanted),
        _ => are_answered(track(code_of(call), block), wanted),
    }
}

/// Whether a row holds.
fn row_holds(row: &str) -> bool {
    let mut parts = row.split('|');
    let call = parts.next().unwrap_or("");
    let start = parts.next().unwrap_or("");
    let shift = parts.next().unwrap_or("");
    let words = parts.next().unwrap_or("");
    let wanted = parts.next().unwrap_or("");
    holds(call, &block_of(start, shift, words), words, wanted)
}

#[test]
fn where_the_words_of_a_block_lead(rt: HostRuntime) {
    for row in ROWS.lines() {
        assert!(&rt; row_holds(row), "{row}");
    }
}
