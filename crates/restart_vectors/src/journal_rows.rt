//! Tests of what a restart finds in a journal, byte for byte: the records of a run, or the one
//! cause for which there is none. Each cause stands at a first, a middle and a last record,
//! wherever it can stand there.
//! The journals of edit_rows.rt are made here too.

ghost use Rattle.run_records.specs.Headers.{IsShort};

use crate::run::recovered;
use crate::step_rows::header_of_blocks;
use run_records::{Header, Version, put_header};
use std::alloc::Global;
use std::test::Fail;

/// `pair SETTINGS|LEFT|RIGHT` gives the settings and the blocks of both tapes. Each line after it
/// is a journal of them and what is found: its bodies, parted by commas, of hexadecimal digits,
/// where `H` is the header of version 2 and `h` that of version 1, `3x01` is 01 three times,
/// `SEVEN` edits #500 of path 1, and `G54` a work offset of path 2. Of the first pair the header
/// has 64 bytes, so the first batch stands at 74; there path 1 does 01010100000000, path 2 does
/// 02010100000001, and they end with 010400 and 020400. A text that begins with a `%` is a whole
/// tape. Of a journal that is `cut 63` so many bytes are left, and after `raw` come the bytes of a
/// file.
const ROWS: &str = "\
pair |#500=#500+1~M30|#500=#500+1~M30
H|
H,01 01010100000000|1 did 0
H,02 01010100000000 02010100000001|1 did 0, 2 did 1
H,04 01010100000000 02010100000001 010400 020400|1 did 0, 2 did 1, 1 ended, 2 ended
H,01 01010100000000,01 02010100000000,01 020400,01 010400|1 did 0, 2 did 0, 2 ended, 1 ended
H,04 03010100000000 02010100000001 010400 020400|bad record at 75: no path
H,04 01010100000000 00010100000001 010400 020400|bad record at 82: no path
H,04 01010100000000 02010100000001 010400 030400|bad record at 92: no path
H,01 01010100000000,01 02010100000001,01 010400,01 ff0400|bad record at 110: no path
H,01 03|bad record at 75: no path
H,01 030100|bad record at 75: no path
H,04 01000100000000 02010100000001 010400 020400|bad record at 75: no kind
H,04 01010100000000 02070100000001 010400 020400|bad record at 82: no kind
H,04 01010100000000 02010100000001 010400 020700|bad record at 92: no kind
H,01 01010100000000,01 02010100000001,01 010400,01 02ff00|bad record at 110: no kind
H,01 0107|bad record at 75: no kind
H,01 010121 132x00|bad record at 75: too many stamps
H,02 01010100000000 020121 132x00|bad record at 82: too many stamps
H,01 01010100000000,01 02010100000001,01 010400,01 020421|bad record at 110: too many stamps
H,01 010120 128x00|bad record at 75: not legal
H,01|bad record at 75: wrong length
H,01 0101|bad record at 75: wrong length
H,01 01010100000000,01 020101000000,01 010400|bad record at 88: wrong length
H,04 01010100000000 02010100000001 010400|bad record at 92: wrong length
H,01 01010100000000,01 02010100000001,01 010400,01 02|bad record at 110: wrong length
H,01 01010100000000 00|bad record at 74: wrong length
H,01 01010100000000,01 02010100000001 020400,01 010400|bad record at 87: wrong length
H,01 01010100000000,01 02010100000001,01 010400,01 020400 00|bad record at 109: wrong length
H,00|bad record at 74: wrong count
H,|bad record at 74: wrong count
H,41 65x010100|bad record at 74: wrong count
H,41 010100|bad record at 74: wrong count
H,01 01010100000000,00,01 010400|bad record at 87: wrong count
H,01 01010100000000,01 02010100000001,01 010400,|bad record at 109: wrong count
H,01 01010100000001|bad record at 75: not legal
H,01 010100|bad record at 75: not legal
H,01 010200|bad record at 75: not legal
H,01 010400|bad record at 75: not legal
H,02 01010100000000 02010100000002|bad record at 82: not legal
H,04 01010100000000 02010100000002 010400 020400|bad record at 82: not legal
H,04 01010100000000 02010100000001 010400 020100|bad record at 92: not legal
H,05 01010100000000 02010100000001 010400 020400 020400|bad record at 95: not legal
H,01 01010100000000,01 02010100000002,00|bad record at 100: wrong count
H 00,01 03|bad record at 5: no header
5457494e0003,00|bad record at 5: no header
,01 03|bad record at 5: no header
H,01 SEVEN|1 edits #500 7000000
H,03 SEVEN 01060401f4 16x00 G54|1 edits #500 7000000, 1 edits #500 vacant, 2 edits work 1 -1000 5000
H,02 SEVEN 01010100000001|1 edits #500 7000000, 1 did 1
H,02 SEVEN 02010100000001|1 edits #500 7000000, 2 did 1
H,02 SEVEN 01010100000000|bad record at 96: not legal
H,02 SEVEN 02010100000000|bad record at 96: not legal
H,03 02010100000000 SEVEN 01010100000002|2 did 0, 1 edits #500 7000000, 1 did 2
H,03 02010100000000 SEVEN 01010100000001|bad record at 103: not legal
H,04 01010100000000 010400 SEVEN 02010100000003|1 did 0, 1 ended, 1 edits #500 7000000, 2 did 3
H,05 01010100000000 02010100000001 010400 020400 G54|1 did 0, 2 did 1, 1 ended, 2 ended, 2 edits work 1 -1000 5000
H,01 0106|bad record at 75: wrong length
H,02 01010100000000 01060401f4 15x00|bad record at 82: wrong length
H,01 01060501f4 16x00|bad record at 75: bad edit
H,01 01060400c8 16x00|bad record at 75: bad edit
H,01 0106010007 16x00|bad record at 75: bad edit
H,01 0106020000 16x00|bad record at 75: bad edit
H,01 0106010001 7f 15x00|bad record at 75: bad edit
H,01 01060401f4 7x00 02 8x00|bad record at 75: bad edit
H,01 01060401f4 15x00 01|bad record at 75: bad edit
H,01 01060401f4 7x00 01 7f 7x00|bad record at 75: bad edit
H,02 SEVEN 01060501f4 16x00|bad record at 96: bad edit
H,ff0002|bad record at 74: wrong count
h,01 01010100000000|1 did 0
h,01 SEVEN|bad record at 75: no kind
h,01 0106|bad record at 75: no kind
h,01 01060501f4 16x00|bad record at 75: no kind
h,02 01010100000000 SEVEN|bad record at 82: no kind
h,01 0306|bad record at 75: no path
h,ff0002|
h,ff0002,01 SEVEN|1 edits #500 7000000
h,ff0002,01 01060501f4 16x00|bad record at 83: bad edit
h,01 01010100000000,ff0002,02 SEVEN 02010100000002|1 did 0, 1 edits #500 7000000, 2 did 2
h,01 01010100000000,ff0002,02 SEVEN 02010100000001|bad record at 117: not legal
h,ff0002,ff0002|bad record at 82: wrong count
h,ff0003|bad record at 74: wrong count
h,ff000200|bad record at 74: wrong count
h,ff0002 cut 76|cut short at 69
pair records 4~|#500=#500+1~M30|#500=#500+1~M30
H,04 01010100000000 02010100000001 010400 020400|1 did 0, 2 did 1, 1 ended, 2 ended
pair records 3~|#500=#500+1~M30|#500=#500+1~M30
H,03 01010100000000 02010100000001 010400|1 did 0, 2 did 1, 1 ended
H,04 01010100000000 02010100000001 010400 020400|bad record at 102: too many records
H,04 01010100000000 02010100000001 010400 020100|bad record at 102: not legal
pair records 2~|#500=#500+1~M30|#500=#500+1~M30
H,02 01010100000000 02010100000001|1 did 0, 2 did 1
pair records 1~|#500=#500+1~M30|#500=#500+1~M30
H,02 01010100000000 02010100000001|bad record at 92: too many records
H,02 01010100000000 02010100000002|bad record at 92: not legal
H,02 SEVEN 01010100000001|bad record at 106: too many records
H,02 01010100000000 SEVEN|bad record at 92: too many records
H,04 01010100000000 02010100000001 010400 020400|bad record at 92: too many records
H,01 01010100000000,01 02010100000000|bad record at 98: too many records
pair records 0~|#500=#500+1~M30|#500=#500+1~M30
H,02 01010100000000 02010100000001|bad record at 5: refused tapes
pair |%~O1~M30~|#500=#500+1~M30
H,01 01010100000001|bad record at 5: refused tapes
H,01 010700|bad record at 61: no kind
H,02 01010100000000 02010100000001 cut 63|cut short at 55
H cut 0|no run
raw 00|no run
raw 00ffff|no run
pair |M101~M102~M30|M102~M101~M30
H|bad record at 5: refused tapes
H,01 010100|bad record at 5: refused tapes
H,01 010700|bad record at 71: no kind
pair |#3000=1~M30|M30
H,02 020400 010500|2 ended, 1 alarmed
H,02 010500 020400|bad record at 62: not legal
H,02 010500 SEVEN|bad record at 62: not legal
H,02 SEVEN 010500|1 edits #500 7000000, 1 alarmed";

/// The record of an edit: #500 of path 1 gets 7. journal_vectors (src/bytes.rt) has the same bytes.
const SEVEN: &str = "01060401f4000000000000000100000000006acfc0";

/// The record of an edit: the work offset 1 of path 2, that of G54, gets X-1. Z5.
const G54: &str = "0206010001fffffffffffffc180000000000001388";

/// The headers of a pair, in both versions.
#[derive(Drop)]
pub(crate) struct Headers {
    /// The bytes of the header of version 1.
    one: Vec<u8>,
    /// The bytes of the header of version 2.
    two: Vec<u8>,
}

/// The value of a hexadecimal digit.
fn digit(byte: u8) -> u8 {
    match byte {
        b'0'..=b'9' => byte - b'0',
        b'a'..=b'f' => byte - b'a' + 10,
        _ => 0,
    }
}

/// The bytes that the digits write, two for each.
fn put_digits(out: &mut Vec<u8>, digits: &str) -> Result<(), Fail> {
    for pair in digits.as_bytes().chunks(2) {
        let mut byte = 0u8;
        for each in pair {
            byte = byte.wrapping_mul(16).wrapping_add(digit(*each));
        }
        out.push(byte)?;
    }
    Ok(())
}

/// Puts the bytes of digits as many times as the number before the `x` says.
fn put_times(out: &mut Vec<u8>, part: &str) -> Result<(), Fail> {
    let (times, digits) = part.split_once('x').unwrap_or(("1", part));
    for _time in 0..times.parse::<u32>()? {
        put_digits(out, digits)?;
    }
    Ok(())
}

/// Puts a part of a body: the bytes of a header, an edit, or digits.
fn put_part(out: &mut Vec<u8>, headers: &Headers, part: &str) -> Result<(), Fail> {
    match part {
        "H" => Ok(out.extend_from_slice(headers.two.as_slice())?),
        "h" => Ok(out.extend_from_slice(headers.one.as_slice())?),
        "SEVEN" => put_digits(out, SEVEN),
        "G54" => put_digits(out, G54),
        _ => put_times(out, part),
    }
}

/// Puts a body after an open gate and its length.
fn put_body(out: &mut Vec<u8>, body: &[u8]) -> Result<(), Fail> {
    if body.len() >= 1_000 {
        return Err(Fail::new("a body of fewer than a thousand bytes"));
    }
    out.push(1)?;
    out.extend_from_slice(&(body.len() as u32).to_be_bytes())?;
    out.extend_from_slice(body)?;
    Ok(())
}

/// Puts the bytes of a whole journal of these headers: its bodies, and a closed gate.
fn put_bodies(out: &mut Vec<u8>, alloc: Global, headers: &Headers, text: &str) -> Result<(), Fail> {
    for entry in text.split(',') {
        let mut body = Vec::new(alloc);
        for part in entry.split_whitespace() {
            put_part(&mut body, headers, part)?;
        }
        put_body(out, body.as_slice())?;
    }
    out.push(0)?;
    Ok(())
}

/// The bytes of a journal of these headers: whole, or cut, or, if they are `raw`, as they are
/// written.
pub(crate) fn journal_of(alloc: Global, headers: &Headers, text: &str) -> Result<Vec<u8>, Fail> {
    let (whole, size) = text.split_once(" cut ").unwrap_or((text, ""));
    let mut out = Vec::new(alloc);
    match whole.strip_prefix("raw ") {
        Some(digits) => put_digits(&mut out, digits)?,
        None => put_bodies(&mut out, alloc, headers, whole)?,
    }
    out.truncate(size.parse::<usize>().unwrap_or(usize::MAX));
    Ok(out)
}

/// The bytes of a header.
fn bytes_of(alloc: Global, header: &Header) -> Result<Vec<u8>, Fail>
    requires { IsShort header.now }
{
    Ok(put_header(alloc, header)?)
}

/// The bytes of the header of a pair, in this version.
fn header_bytes(alloc: Global, version: Version, pair: &str) -> Result<Vec<u8>, Fail> {
    let (settings, tapes) = pair.split_once('|').ok_or("settings")?;
    let (left, right) = tapes.split_once('|').ok_or("both tapes")?;
    match header_of_blocks(alloc, version, settings, left, right) {
        Ok(header) => bytes_of(alloc, &header),
        Err(fail) => Err(fail),
    }
}

/// The headers of a pair.
pub(crate) fn headers_of(alloc: Global, pair: &str) -> Result<Headers, Fail> {
    let one = header_bytes(alloc, Version::One, pair)?;
    let two = header_bytes(alloc, Version::Two, pair)?;
    Ok(Headers { one, two })
}

/// What a failed row prints: the row and what is found in its journal. Empty if that is what the
/// row says.
fn failure_of(alloc: Global, headers: &Headers, row: &str) -> Result<String, Fail> {
    let (text, wanted) = row.split_once('|').ok_or("a journal and what is found")?;
    let journal = journal_of(alloc, headers, text)?;
    let got = recovered(alloc, journal.as_slice())?;
    let mut failure = String::new(alloc);
    if got.as_str() != wanted {
        write!(&mut failure, "{row} but {got}")?;
    }
    Ok(failure)
}

#[test]
fn what_is_found_in_a_journal(rt: HostRuntime) -> Result<(), Fail> {
    let alloc = rt.alloc();
    let mut headers = headers_of(alloc, "|M30|M30")?;
    for row in ROWS.lines() {
        if let Some(pair) = row.strip_prefix("pair ") {
            headers = headers_of(alloc, pair)?;
        } else {
            let failure = failure_of(alloc, &headers, row)?;
            assert_eq!(&rt; failure.as_str(), "");
        }
    }
    Ok(())
}
