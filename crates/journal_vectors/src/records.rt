//! Tests of records and headers (run_records): each is put as its bytes, taken from them, and
//! refused with its least cause.
ghost use Rattle.run_records.specs.Headers.{IsShort};

use crate::bytes::{bytes_of, put_digits};
use crate::rows::columns;
use nc_number::{Point, Var};
use offset_store::Slot;
use run_records::{
    Edit, Entry, EntryKind, EntryList, Header, put_entry, put_header, take_entry, take_header,
};
use std::alloc::{AllocError, Global};
use std::test::Fail;

/// `BYTES, BYTES, ..|TAKEN|ROOM`: the size of the record that stands in front of each, or why there
/// is none, and then the records of a list of them: the path, what it did, and its stamps; or of an
/// edit the path, what is set, its number, and X and Z of an offset in 0.001 mm or the value of a
/// variable in millionths. `|2` at the end makes room for two records before.
const RECORDS: &str = "\
02 01 01 00000001 133xaa|7: 2 did 1
03 01 00|no path:
01 07 00|no kind:
01 07|no kind:
01 00 00|no kind:
01 06 00|wrong length:
01 01 21 00000000|too many stamps:
01 01 21 132x00|too many stamps:
01 01|wrong length:
|wrong length:
03|no path:
00 09|no path:
02 05 01 000000|wrong length:
01 06|wrong length:
03 06|no path:
01 01 00 0909|3: 1 did
01 02 00 0909|3: 1 arrived
01 03 00 0909|3: 1 met
01 04 00 0909|3: 1 ended
01 05 00 0909|3: 1 alarmed
02 01 20 31x00000000 00000007|131: 2 did 0 0 0 0 0 0 0 0 0 0 0 0 0 0 0 0 0 0 0 0 0 0 0 0 0 0 0 0 0 0 0 7
01 04 00, 02 04 00|3 3: 1 ended, 2 ended|2
01 06 01 0001 fffffffffffffc18 0000000000001388 09|21: 1 work 1 -1000 5000
02 06 01 0000 16x00|21: 2 work 0 0 0
01 06 01 0006 0000000005f5e0ff fffffffffa0a1f01|21: 1 work 6 99999999 -99999999
02 06 02 0001 16x00|21: 2 geometry 1 0 0
01 06 02 0040 16x00|21: 1 geometry 64 0 0
01 06 03 0001 16x00|21: 1 wear 1 0 0
01 06 03 0040 16x00|21: 1 wear 64 0 0
01 06 04 01f4 0000000000000001 00000000006acfc0|21: 1 common 500 7000000
01 06 04 01f4 16x00|21: 1 common 500 vacant
01 06 04 0064 0000000000000001 00005af3107a3fff|21: 1 common 100 99999999999999
01 06 04 00c7 0000000000000001 ffffa50cef85c001|21: 1 common 199 -99999999999999
01 06 04 03e7 0000000000000001 8x00|21: 1 common 999 0
01 06 00 0001 16x00|bad edit:
01 06 05 0001 16x00|bad edit:
01 06 ff 0001 16x00|bad edit:
01 06 01 0007 16x00|bad edit:
01 06 01 0100 16x00|bad edit:
01 06 02 0000 16x00|bad edit:
01 06 02 0041 16x00|bad edit:
01 06 03 0000 16x00|bad edit:
01 06 03 0041 16x00|bad edit:
01 06 04 0000 16x00|bad edit:
01 06 04 0063 16x00|bad edit:
01 06 04 00c8 16x00|bad edit:
01 06 04 01f3 16x00|bad edit:
01 06 04 03e8 16x00|bad edit:
01 06 01 0001 0000000005f5e100 8x00|bad edit:
01 06 01 0001 8x00 fffffffffa0a1f00|bad edit:
01 06 04 01f4 0000000000000000 0000000000000001|bad edit:
01 06 04 01f4 0000000000000000 ffffffffffffffff|bad edit:
01 06 04 01f4 0000000000000002 8x00|bad edit:
01 06 04 01f4 ffffffffffffffff 8x00|bad edit:
01 06 04 01f4 0000000000000001 00005af3107a4000|bad edit:
01 06 04 01f4 0000000000000001 ffffa50cef85c000|bad edit:
01 06 04 01f4 0000000000000001 8000000000000000|bad edit:
01 06 05 0001 15x00|wrong length:
01 06 01 0001 fffffffffffffc18 00000000000013|wrong length:
03 06 05 0001 16x00|no path:
01 06 01 0001 16x00, 02 01 01 00000007, 01 06 04 01f4 16x00, 02 02 00, 02 06 03 0002 16x00\
|21 7 21 3 21: 1 work 1 0 0, 2 did 7, 1 common 500 vacant, 2 arrived, 2 wear 2 0 0|2
02 01 00, 02 01 01 00000007, 02 01 02 00000064 00000065, 02 01 20 00000004 30x00000005 00000006, 02 01 00, 02 01 01 00000009\
|3 7 11 131 3 7: 2 did, 2 did 7, 2 did 100 101, 2 did 4 5 5 5 5 5 5 5 5 5 5 5 5 5 5 5 5 5 5 5 5 5 5 5 5 5 5 5 5 5 5 6, 2 did, 2 did 9";

/// `BYTES|TAKEN`: the version, and the settings and both tapes, each in brackets, or that there are
/// none.
const HEADERS: &str = "\
5457494e0001 TEXTS|1<><250a4f310a233530303d233530302b310a4d33300a250a><250a4f310a233530303d233530302b310a4d33300a250a>
5457494e0002 TEXTS|2<><250a4f310a233530303d233530302b310a4d33300a250a><250a4f310a233530303d233530302b310a4d33300a250a>
5457494e0001 TEXTS 00|bad header
5457494e0000 TEXTS|bad header
5457494e0003 TEXTS|bad header
5457494e0009 TEXTS|bad header
5457494e0102 TEXTS|bad header
5457494e0002 00000000 00000017 TAPE 00000017 250a4f310a233530303d233530302b310a4d33300a25|bad header
5457494e0001 00000000 00000017 TAPE 00000017 250a4f310a233530303d233530302b310a4d33300a25|bad header
|bad header";

/// Whether the bytes begin with those that the record is put as, and nothing is put behind them.
fn is_put(entry: &Entry, bytes: &[u8]) -> bool {
    let clear = [0xAA; 140];
    let mut room = clear;
    let size = put_entry(entry, &mut room);
    let (put, rest) = room.split_at(size);
    let (_, untouched) = clear.split_at(size);
    bytes.starts_with(put) && rest == untouched
}

/// Takes the record that stands in front into the list, and puts its size, or why there is none.
fn take_one(out: &mut String, list: &mut EntryList, bytes: &[u8]) -> Result<(), Fail> {
    list.reserve(1)?;
    match take_entry(bytes) {
        Ok((entry, size)) => {
            let known = is_put(&entry, bytes);
            list.push(entry);
            write!(out, "{size}")?;
            if !known {
                out.push_str(" but put otherwise")?;
            }
        }
        Err(cause) => write!(out, "{cause}")?,
    }
    Ok(())
}

/// The word of a row that stands for the kind of a record.
fn kind_word(kind: &EntryKind) -> &'static str {
    match kind {
        EntryKind::Did => "did",
        EntryKind::Arrived => "arrived",
        EntryKind::Met => "met",
        EntryKind::Ended => "ended",
        EntryKind::Alarmed => "alarmed",
        EntryKind::Edited(_) => "edited",
    }
}

/// The kind and the number of an offset.
fn put_slot(out: &mut String, slot: &Slot) -> Result<(), AllocError> {
    match slot {
        Slot::Work(n) => write!(out, " work {}", n.get()),
        Slot::Geometry(n) => write!(out, " geometry {}", n.get()),
        Slot::Wear(n) => write!(out, " wear {}", n.get()),
    }
}

/// What a variable is made.
fn put_var(out: &mut String, to: &Var) -> Result<(), AllocError> {
    match to {
        Var::Vacant => out.push_str(" vacant"),
        Var::Is(value) => write!(out, " {}", value.micro()),
    }
}

/// What an edit sets, and to what.
fn put_edit(out: &mut String, edit: &Edit) -> Result<(), AllocError> {
    match edit {
        Edit::Offset { slot, to } => {
            let Point { x, z } = to.get();
            put_slot(out, slot)?;
            write!(out, " {x} {z}")
        }
        Edit::Common { variable, to } => {
            write!(out, " common {}", variable.get())?;
            put_var(out, to)
        }
    }
}

/// The number of the path, and what it did with its stamps, or its edit.
fn put_record(out: &mut String, entry: &Entry) -> Result<(), AllocError> {
    write!(out, " {}", entry.path.number())?;
    match entry.kind.edit() {
        Some(edit) => put_edit(out, edit),
        None => put_step(out, entry),
    }
}

/// What the path did, and its stamps.
fn put_step(out: &mut String, entry: &Entry) -> Result<(), AllocError> {
    write!(out, " {}", kind_word(&entry.kind))?;
    for stamp in entry.stamps.as_slice() {
        write!(out, " {stamp}")?;
    }
    Ok(())
}

/// The records of the list, one behind the other.
fn put_list(out: &mut String, list: &EntryList) -> Result<(), AllocError> {
    for index in 0..list.len() {
        if index > 0 {
            out.push(',')?;
        }
        put_record(out, &list.get(index))?;
    }
    Ok(())
}

/// Whether that is what is taken.
fn records_hold(alloc: Global, row: &str) -> Result<bool, Fail> {
    let [texts, wanted, room, ..] = columns(row);
    let mut out = String::new(alloc);
    let mut list = EntryList::empty(alloc);
    if room == "2" {
        list.reserve(2)?;
    }
    for text in texts.split(", ") {
        if !out.is_empty() {
            out.push(' ')?;
        }
        let bytes = bytes_of(alloc, text)?;
        take_one(&mut out, &mut list, bytes.as_slice())?;
    }
    out.push(':')?;
    put_list(&mut out, &list)?;
    Ok(out.as_str() == wanted)
}

/// The version and the texts of a header, and whether it is put as these bytes.
fn put_texts(alloc: Global, out: &mut String, header: &Header, bytes: &[u8]) -> Result<(), Fail>
    requires { IsShort header.now }
{
    let put = put_header(alloc, header)?;
    if put.as_slice() != bytes {
        out.push_str("put otherwise: ")?;
    }
    write!(out, "{}", header.version.number())?;
    for text in [&header.settings, &header.left, &header.right] {
        out.push('<')?;
        put_digits(out, text.as_slice())?;
        out.push('>')?;
    }
    Ok(())
}

/// Whether that is what is taken.
fn header_holds(alloc: Global, row: &str) -> Result<bool, Fail> {
    let [text, wanted, ..] = columns(row);
    let bytes = bytes_of(alloc, text)?;
    let mut out = String::new(alloc);
    match take_header(alloc, bytes.as_slice()) {
        Ok(header) => put_texts(alloc, &mut out, &header, bytes.as_slice())?,
        Err(fault) => write!(&mut out, "{fault}")?,
    }
    Ok(out.as_str() == wanted)
}

#[test]
fn a_record_is_taken_as_it_is_put_or_has_its_least_cause(rt: HostRuntime) -> Result<(), Fail> {
    for row in RECORDS.lines() {
        assert!(&rt; records_hold(rt.alloc(), row)?, "{row}");
    }
    Ok(())
}

#[test]
fn a_header_is_put_and_taken_as_a_whole(rt: HostRuntime) -> Result<(), Fail> {
    for row in HEADERS.lines() {
        assert!(&rt; header_holds(rt.alloc(), row)?, "{row}");
    }
    Ok(())
}
