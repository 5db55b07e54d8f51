//! Tests of the steps of a table (run_table): what they answer, and what they leave on the disk.
//! The other rows make their headers here (`header_of_blocks`).
ghost use Rattle.std.specs.Prelude.{IfOk};
ghost use Rattle.run_records.specs.Headers.{IsShort};

use crate::run::{begun_on, disk_left};
use crate::step_text::put_answer;
use crate::texts::header_of;
use crate::turns::step_drained;
use disk_model::{Disk, MemoryDisk};
use nc_number::Path;
use run_records::{Header, Version};
use run_table::Table;
use std::alloc::{AllocError, Global};
use std::test::Fail;

/// A row: the settings; the blocks of both tapes; for how many records there is a budget; the
/// number of the disk's call that fails, or 0; steps of a path, as many times as the number before
/// the `x` says; what the last of those times answered; and how many bytes then stand behind the
/// header, with the first twenty of them. The beginning makes eight calls.
const ROWS: &str = "\
|M30|M30|9|0|1,2,1,2|ends, ends, has ended, has ended; 19 bytes 01000000040101040001000000040102040000
|#500=7~M30|#1=#500~G00 X#1~M30|9|0|1,2,2|did 0 moves, reads #500 at 1, did 0 moves; 1 bytes 00
|#500=7~M30|#1=#500~G00 X#1~M30|9|0|1,2,2,2|did 0 moves, reads #500 at 1, did 0 moves, did 1 moves; 20 bytes 010000000e030101000201010000000102010000
|WHILE [#1 LT 100] DO1~#1=#1+1~END1~M30|M30|99|0|63x1|did 0 moves; 1 bytes 00
|WHILE [#1 LT 100] DO1~#1=#1+1~END1~M30|M30|99|0|64x1|did 0 moves; 199 bytes 01000000c1400101000101000101000101000101
|WHILE [#1 LT 100] DO1~#1=#1+1~END1~M30|M30|99|0|65x1|did 0 moves; 199 bytes 01000000c1400101000101000101000101000101
records 10~|M101~M102~M99|M101~M102~M99|50|0|1,2,1,2,1,2,1,2,1,2,1,2|arrives 101, meets 101, arrives 102, meets 102, did 0 moves, did 0 moves, arrives 101, meets 101, arrives 102, meets 102, full, full; 79 bytes 0100000004010102000100000004010203000100
|M101~M102~M99|M101~M102~M99|3|0|1,2,1,2,1|arrives 101, meets 101, arrives 102, spent, spent; 28 bytes 0100000004010102000100000004010203000100
records 3~|M101~M102~M99|M101~M102~M99|3|0|1,2,1,2,1|arrives 101, meets 101, arrives 102, full, full; 28 bytes 0100000004010102000100000004010203000100
|#500=7~M30|M30|1|0|1,1,2|did 0 moves, spent, spent; 10 bytes 01000000040101010000
records 1~|#3000=1~M30|M30|1|0|1,1,2|alarm 33, stopped by alarm 33, stopped by alarm 33; 10 bytes 01000000040101050000
|M30|M30|0|0|1|spent; 1 bytes 00
|M101~M30|M101~M30|9|0|1,1,2,2|arrives 101, waits 101, meets 101, ends; 28 bytes 0100000004010102000100000004010203000100
|M30|M30|9|9|1,1,2|disk fault, stopped by its disk, stopped by its disk; 1 bytes 00
|M30|M30|9|10|1,1,2|disk fault, stopped by its disk, stopped by its disk; 10 bytes 00000000040101040000
|M30|M30|9|11|1,1,2|disk fault, stopped by its disk, stopped by its disk; 10 bytes 00000000040101040000
|M30|M30|9|12|1,1,2|disk fault, stopped by its disk, stopped by its disk; 10 bytes 01000000040101040000";

/// The tape whose main program has these blocks, or the text itself if it begins as a tape does.
fn tape_text(alloc: Global, blocks: &str) -> Result<String, AllocError> {
    if blocks.starts_with('%') {
        String::from_str(alloc, blocks)
    } else {
        format!(in alloc; "%~O1~{blocks}~%~")
    }
}

/// The header of these settings, and of two tapes whose blocks these are.
pub(crate) fn header_of_blocks(
    alloc: Global,
    version: Version,
    settings: &str,
    left: &str,
    right: &str,
) -> Result<Header, Fail>
    ensures { IfOk result IsShort }
{
    let left = tape_text(alloc, left)?;
    let right = tape_text(alloc, right)?;
    header_of(alloc, version, left.as_str(), right.as_str(), settings)
}

/// Makes so many steps of a path, and writes what the last one answered.
fn put_steps<D: Disk>(
    out: &mut String,
    table: &mut Table<D>,
    path: Path,
    times: u32,
) -> Result<(), AllocError> {
    for _time in 1..times {
        let _answer = step_drained(table, path);
    }
    put_answer(out, &step_drained(table, path))
}

/// Makes the steps of a word: a path's number, after the number of its steps and an `x` if there
/// are several.
fn put_word<D: Disk>(out: &mut String, table: &mut Table<D>, word: &str) -> Result<(), Fail> {
    let (times, path) = word.split_once('x').unwrap_or(("1", word));
    let path = if path == "1" { Path::One } else { Path::Two };
    put_steps(out, table, path, times.parse::<u32>()?)?;
    Ok(())
}

/// Writes the answers of the table to the words of a row.
fn put_words<D: Disk>(out: &mut String, table: &mut Table<D>, words: &str) -> Result<(), Fail> {
    for word in words.split(',') {
        if !out.is_empty() {
            out.push_str(", ")?;
        }
        put_word(out, table, word)?;
    }
    Ok(())
}

/// The bytes behind the first `count`.
fn behind(bytes: &[u8], count: usize) -> &[u8] {
    bytes.split_at(count.min(bytes.len())).1
}

/// The bytes behind the header of a journal.
fn behind_header<'a>(bytes: &'a [u8], header: &Header) -> &'a [u8] {
    let rest = behind(bytes, 23);
    let rest = behind(rest, header.settings.as_slice().len());
    let rest = behind(rest, header.left.as_slice().len());
    behind(rest, header.right.as_slice().len())
}

/// Writes how many bytes stand behind the header, and the first twenty of them.
fn put_bytes(out: &mut String, disk: &MemoryDisk, header: &Header) -> Result<(), AllocError> {
    let rest = behind_header(disk.bytes(), header);
    write!(out, "; {} bytes ", rest.len())?;
    for byte in rest.iter().take(20) {
        write!(out, "{byte:02x}")?;
    }
    Ok(())
}

/// A table of the header on an empty disk that fails at one call, or at none.
fn table_on(alloc: Global, header: &Header, failing: u64) -> Result<Table<MemoryDisk>, Fail>
    requires { IsShort header.now }
{
    let disk = MemoryDisk::new(alloc, 10_000, 1_000, &[failing])?;
    match begun_on(alloc, header, disk)? {
        Ok(table) => Ok(table),
        Err(_disk) => Err(Fail::new("no run begins")),
    }
}

/// Writes what the steps of a table with this budget answer.
fn put_answers<D: Disk>(
    out: &mut String,
    table: &mut Table<D>,
    budget: u32,
    words: &str,
) -> Result<(), Fail> {
    table.prepare(budget)?;
    put_words(out, table, words)
}

/// Writes what the steps of this table answer, and what they leave on the disk.
fn put_told(
    out: &mut String,
    table: Table<MemoryDisk>,
    header: &Header,
    budget: u32,
    words: &str,
) -> Result<(), Fail> {
    let mut table = table;
    let answered = put_answers(out, &mut table, budget, words);
    let disk = disk_left(table);
    answered?;
    Ok(put_bytes(out, &disk, header)?)
}

/// What the steps of a new table answer, and what they leave on the disk.
fn told(
    alloc: Global,
    header: &Header,
    budget: u32,
    failing: u64,
    words: &str,
) -> Result<String, Fail>
    requires { IsShort header.now }
{
    let mut out = String::new(alloc);
    match table_on(alloc, header, failing) {
        Ok(table) => put_told(&mut out, table, header, budget, words)?,
        Err(fail) => return Err(fail),
    }
    Ok(out)
}

/// What a failed row prints: the row and what is answered. Empty if that is what the row says.
fn failure_of(alloc: Global, row: &str) -> Result<String, Fail> {
    let (settings, rest) = row.split_once('|').ok_or("settings")?;
    let (left, rest) = rest.split_once('|').ok_or("a left tape")?;
    let (right, rest) = rest.split_once('|').ok_or("a right tape")?;
    let (budget, rest) = rest.split_once('|').ok_or("a budget")?;
    let (failing, rest) = rest.split_once('|').ok_or("a failing call")?;
    let (words, wanted) = rest.split_once('|').ok_or("steps and answers")?;
    let header = header_of_blocks(alloc, Version::Two, settings, left, right)?;
    let (budget, failing) = (budget.parse::<u32>()?, failing.parse::<u64>()?);
    let got = told(alloc, &header, budget, failing, words)?;
    let mut failure = String::new(alloc);
    if got.as_str() != wanted {
        write!(&mut failure, "{row} but {got}")?;
    }
    Ok(failure)
}

#[test]
fn steps_and_what_they_leave(rt: HostRuntime) -> Result<(), Fail> {
    let alloc = rt.alloc();
    for row in ROWS.lines() {
        let failure = failure_of(alloc, row)?;
        assert_eq!(&rt; failure.as_str(), "");
    }
    Ok(())
}
