//! Tests of offset_store: the offsets of a path, and which of them G10 names. The rows are worked
//! by hand from the rules of the control.
ghost use Rattle.std.specs.Prelude.{◌≤◌};

use crate::move_text::is_alarm;
use crate::words::{behind, count, increments, point};
use nc_number::{Axis, Point};
use offset_store::{OffsetFault, OffsetForm, Offsets, Slot};

/// The call, its words, and what is answered. `new` begins with every offset 0. G10 names an offset
/// by L2 and P, or by P alone; `make` is what its axis words make of the offset, which stays as it
/// is.
const ROWS: &str = "\
new|
set work|P1 X0 Z100.|
set tool|P10001 X-20. Z-10.|
shift|P1 T1|to X-20. Z90.
set work|P0 X0.001 Z0.01|
set tool|P1 X0.1 Z1.|
shift|P1 T1|to X-19.899 Z91.01
shift|P2 T0|to X0.001 Z0.01
wear|P1|to X0.1 Z1.
new|
set work|P7 X0 Z0|alarm 40
set work|P-1 X100000. Z0|alarm 40
set tool|P10065 X0 Z0|alarm 40
set work|P6 X0.001 Z0.002|
set work|P6 X100000. Z0|alarm 41
work|P6|to X0.001 Z0.002
set tool|P1 X100000. Z0|alarm 41
set tool|P64 X99999.999 Z-99999.999|
wear|P64|to X99999.999 Z-99999.999
new|
put|P64 X99999.99 Z-1.|
make|P64|to X99999.99 Z-1.
make|P64 X-0.005 W-0.5|to X-0.005 Z-1.5
make|P64 U0.009|to X99999.999 Z-1.
make|P64 U0.01|alarm 41
make|P64 Z-99999.999|to X99999.99 Z-99999.999
make|P64 Z-100000.|alarm 41
make|P64 W100000.999|to X99999.99 Z99999.999
make|P64 W-9223372036854775808|alarm 41
at|P64|to X99999.99 Z-1.
at|P10064|to X0 Z0
name|L2 P0|work 0
name|L2 P6|work 6
name|P1|wear 1
name|P64|wear 64
name|P10001|geometry 1
name|P10064|geometry 64
name|L2|alarm 40
name|L2 P-1|alarm 40
name|L2 P7|alarm 40
name||alarm 40
name|P-1|alarm 40
name|P0|alarm 40
name|P65|alarm 40
name|P10000|alarm 40
name|P10065|alarm 40";

/// The offset that G10 names with these words.
fn named(words: &str) -> Result<Slot, OffsetFault> {
    let form = if words.starts_with("L2") {
        OffsetForm::WorkOffset
    } else {
        OffsetForm::ToolOffset
    };
    Slot::named(form, increments(words, 'P'))
}

/// Whether the text writes the offset: its list, and its number.
fn is_slot(slot: &Slot, text: &str) -> bool {
    let (list, number) = text.split_once(' ').unwrap_or((text, ""));
    match slot {
        Slot::Work(n) => list == "work" && u64::from(n.get()) == count(number),
        Slot::Geometry(n) => list == "geometry" && u64::from(n.get()) == count(number),
        Slot::Wear(n) => list == "wear" && u64::from(n.get()) == count(number),
    }
}

/// Whether an offset was set, or refused by the alarm that is wanted.
fn is_set(answer: Result<(), OffsetFault>, wanted: &str) -> bool {
    match answer {
        Ok(()) => wanted.is_empty(),
        Err(fault) => is_alarm(fault.number, wanted),
    }
}

/// Whether the text writes the point, `to X50. Z2.`
fn is_point(at: Point, wanted: &str) -> bool {
    wanted.starts_with("to ") && at == point(wanted)
}

/// A number that follows the letter, no greater than the last one.
fn number(words: &str, letter: char, last: u8) -> u8
    ensures { result ≤ last }
{
    let told = count(behind(words, letter).unwrap_or(""));
    if told < u64::from(last) {
        told as u8
    } else {
        last
    }
}

/// Whether a call with an offset that G10 names answers that.
fn slot_holds(offsets: &mut Offsets, call: &str, words: &str, wanted: &str) -> bool {
    let slot = match named(words) {
        Ok(slot) => slot,
        Err(fault) => return is_alarm(fault.number, wanted),
    };
    match call {
        "name" => is_slot(&slot, wanted),
        "at" => is_point(offsets.at(&slot), wanted),
        "put" => {
            let to = point(words);
            if to.is_position() {
                offsets.put(&slot, to);
            }
            true
        }
        _ => {
            let x = Axis::of(increments(words, 'X'), increments(words, 'U'));
            let z = Axis::of(increments(words, 'Z'), increments(words, 'W'));
            match offsets.changed(&slot, x, z) {
                Ok(to) => is_point(to, wanted),
                Err(fault) => is_alarm(fault.number, wanted),
            }
        }
    }
}

/// Whether the call of a row answers what is wanted.
fn holds(offsets: &mut Offsets, call: &str, words: &str, wanted: &str) -> bool {
    let p = increments(words, 'P').unwrap_or(0);
    let (work, tool) = (number(words, 'P', 6), number(words, 'T', 64));
    match call {
        "set work" => is_set(offsets.set_work(p, point(words)), wanted),
        "set tool" => is_set(offsets.set_tool(p, point(words)), wanted),
        "shift" => is_point(offsets.shift(work, tool), wanted),
        "work" => is_point(offsets.work(work), wanted),
        "wear" => is_point(offsets.wear(number(words, 'P', 64)), wanted),
        _ => slot_holds(offsets, call, words, wanted),
    }
}

#[test]
fn what_the_offsets_of_a_path_answer(rt: HostRuntime) {
    let mut offsets = Offsets::new();
    for row in ROWS.lines() {
        let (call, rest) = row.split_once('|').unwrap_or((row, ""));
        let (words, wanted) = rest.split_once('|').unwrap_or((rest, ""));
        if call == "new" {
            offsets = Offsets::new();
        } else {
            assert!(&rt; holds(&mut offsets, call, words, wanted), "{row}");
        }
    }
}
