//! Tests of the forms in memory of a shelf, a sink and a turret (nc_outside): what they answer
//! where some of their calls are to fail.
use crate::move_text::move_of;
use crate::words::{count, lines_of, point, small};
use nc_moves::Move;
use nc_number::Point;
use nc_outside::{
    FetchFault, Got, LinedMove, MemoryShelf, MemoryTurret, PutFault, Rest, Shelf, Sink, Turret,
    VecSink,
};
use std::alloc::Global;
use std::test::Fail;

/// A name and the most bytes that may come, what then stands behind `%`, how often the shelf has
/// failed, and what it answers. There are `a` with `G00`, `b` with nothing, and another `a`; the
/// third and the fifth call fail.
const SHELF: &str = "\
a 3|%G00|0|fetched
a 2|%|0|too long
a 9|%|1|failed
c 9|%|1|absent
c 9|%|2|failed
b 0|%|2|fetched
A 9|%|2|absent";

/// A piece, in which `~` stands for the end of a line, what was written up to it, how often the
/// sink has failed, and what it answers. The second call fails.
const SINK: &str = "\
records |records |0|put
lost|records |1|failed
7~|records 7~|1|put";

/// A move, a place or a settle, how often the turret has failed, and what it answers. It has room
/// for three; the second and the third move or place fail, and the second settle.
const TURRET: &str = "\
to X50. Z0|0|taken
settle|0|taken
aux M3|1|failed
aux M8|2|failed
settle|3|failed
aux M9|3|taken
aux M30|4|failed
aux M30|5|failed
settle|6|failed";

/// The line of the block whose moves are handed.
const LINE: u32 = 7;

/// The word of a row for what a shelf answered.
fn fetch_name(answer: Result<(), FetchFault>) -> &'static str {
    match answer {
        Ok(()) => "fetched",
        Err(FetchFault::Failed) => "failed",
        Err(FetchFault::Absent) => "absent",
        Err(FetchFault::TooLong) => "too long",
        Err(FetchFault::NoMemory) => "no memory",
    }
}

/// The word of a row for what a sink answered.
fn put_name(answer: Result<(), PutFault>) -> &'static str {
    match answer {
        Ok(()) => "put",
        Err(PutFault::Failed) => "failed",
        Err(PutFault::NoMemory) => "no memory",
    }
}

/// Whether the rest of a row is this count of faults and this answer.
fn is_told(rest: &str, faults: u64, answer: &str) -> bool {
    let (number, wanted) = rest.split_once('|').unwrap_or((rest, ""));
    faults == count(number) && answer == wanted
}

/// Whether the shelf answers a row of `SHELF` so.
fn fetch_holds(alloc: Global, shelf: &mut MemoryShelf, row: &str) -> Result<bool, Fail> {
    let (call, rest) = row.split_once('|').unwrap_or((row, ""));
    let (name, most) = call.split_once(' ').unwrap_or((call, ""));
    let (text, rest) = rest.split_once('|').unwrap_or((rest, ""));
    let mut into = b"%".to_vec(alloc)?;
    let answer = fetch_name(shelf.fetch(name, &mut into, usize::from(small(most))));
    Ok(into.as_slice() == text.as_bytes() && is_told(rest, shelf.faults(), answer))
}

/// Whether the sink answers a row of `SINK` so.
fn put_holds(alloc: Global, sink: &mut VecSink, row: &str) -> Result<bool, Fail> {
    let (piece, rest) = row.split_once('|').unwrap_or((row, ""));
    let (text, rest) = rest.split_once('|').unwrap_or((rest, ""));
    let answer = put_name(sink.put(lines_of(alloc, piece)?.as_slice()));
    let text = lines_of(alloc, text)?;
    Ok(sink.bytes() == text.as_slice() && is_told(rest, sink.faults(), answer))
}

/// Whether the turret answers a row of `TURRET` so.
fn hand_holds(turret: &mut MemoryTurret, row: &str) -> bool {
    let (call, rest) = row.split_once('|').unwrap_or((row, ""));
    let answer = match move_of(call) {
        Some(what) => turret.hand(&LinedMove { line: LINE, what }).is_ok(),
        None if call == "settle" => turret.settle(Rest::Wait(101)).is_ok(),
        None => turret.place(point(call)).is_ok(),
    };
    is_told(
        rest,
        turret.faults(),
        if answer { "taken" } else { "failed" },
    )
}

/// A shelf with two files of one name.
fn shelf_of(alloc: Global) -> Result<MemoryShelf, Fail> {
    let mut files = Vec::new(alloc);
    for (name, bytes) in [("a", "G00"), ("b", ""), ("a", "M30")] {
        let file = (
            String::from_str(alloc, name)?,
            bytes.as_bytes().to_vec(alloc)?,
        );
        files.push(file)?;
    }
    Ok(MemoryShelf::new(alloc, files, &[5, 3])?)
}

#[test]
fn the_first_file_of_a_name_is_appended_and_planned_calls_fail(
    rt: HostRuntime,
) -> Result<(), Fail> {
    let mut shelf = shelf_of(rt.alloc())?;
    for row in SHELF.lines() {
        assert!(&rt; fetch_holds(rt.alloc(), &mut shelf, row)?, "{row}");
    }
    Ok(())
}

#[test]
fn a_planned_call_fails_and_writes_nothing(rt: HostRuntime) -> Result<(), Fail> {
    let mut sink = VecSink::new(rt.alloc(), &[2])?;
    for row in SINK.lines() {
        assert!(&rt; put_holds(rt.alloc(), &mut sink, row)?, "{row}");
    }
    Ok(())
}

#[test]
fn a_planned_call_and_one_past_the_room_fail_and_add_nothing(rt: HostRuntime) -> Result<(), Fail> {
    let mut turret = MemoryTurret::with_plans(rt.alloc(), 3, &[3, 2, 0], &[2])?;
    for row in TURRET.lines() {
        assert!(&rt; hand_holds(&mut turret, row), "{row}");
    }
    let at = Point { x: 50_000, z: 0 };
    let moved = LinedMove {
        line: LINE,
        what: Move::Aux { m: 9 },
    };
    let got = [
        Got::Placed(at),
        Got::Rested(Rest::Wait(101)),
        Got::Moved(moved),
    ];
    assert_eq!(&rt; turret.got(), got.as_slice());
    Ok(())
}
