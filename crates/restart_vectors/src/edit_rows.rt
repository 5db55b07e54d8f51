//! Tests of a restart after an operator's edit: a history with an edit is cut after its records, in
//! both versions of a journal. It is seen what is found, and what a restart comes to.
use crate::journal_rows::{Headers, headers_of, journal_of};
use crate::run::{recovered, restarted};
use crate::step_rows::header_of_blocks;
use run_records::Version;
use std::alloc::Global;
use std::test::Fail;

/// The blocks of path 1: it sets #500 to 1.
const LEFT: &str = "#500=1~M30";

/// The blocks of path 2: it leaves out a block if #500 is 7.
const RIGHT: &str = "IF [#500 EQ 7] GOTO 2~#1=1~N2 #1=2~M30";

/// A row: bodies as in journal_rows.rt, the records that they hold, and those of the whole run
/// after a restart. After the edit path 2 reads 7, whatever it has read before.
const ROWS: &str = "\
H||1 did, 2 did 1, 1 ended, 2 did, 2 did, 2 ended
H,01 010100|1 did|1 did, 2 did 1, 1 ended, 2 did, 2 did, 2 ended
H,01 010100,01 SEVEN|1 did, 1 edits #500 7000000|1 did, 1 edits #500 7000000, 2 did 2, 2 did, 1 ended, 2 ended
H,01 010100,01 SEVEN,01 02010100000002|1 did, 1 edits #500 7000000, 2 did 2|1 did, 1 edits #500 7000000, 2 did 2, 2 did, 1 ended, 2 ended
H,01 010100,01 SEVEN,02 02010100000002 020100|1 did, 1 edits #500 7000000, 2 did 2, 2 did|1 did, 1 edits #500 7000000, 2 did 2, 2 did, 1 ended, 2 ended
H,01 010100,04 SEVEN 02010100000002 020100 010400|1 did, 1 edits #500 7000000, 2 did 2, 2 did, 1 ended|1 did, 1 edits #500 7000000, 2 did 2, 2 did, 1 ended, 2 ended
h,01 010100|1 did|1 did, 2 did 1, 1 ended, 2 did, 2 did, 2 ended
h,01 010100,ff0002|1 did|1 did, 2 did 1, 1 ended, 2 did, 2 did, 2 ended
h,01 010100,ff0002,01 SEVEN|1 did, 1 edits #500 7000000|1 did, 1 edits #500 7000000, 2 did 2, 2 did, 1 ended, 2 ended
h,01 010100,ff0002,01 SEVEN,01 02010100000002|1 did, 1 edits #500 7000000, 2 did 2|1 did, 1 edits #500 7000000, 2 did 2, 2 did, 1 ended, 2 ended
h,01 010100,ff0002,03 SEVEN 02010100000002 020100|1 did, 1 edits #500 7000000, 2 did 2, 2 did|1 did, 1 edits #500 7000000, 2 did 2, 2 did, 1 ended, 2 ended
h,ff0002,02 010100 SEVEN,03 02010100000002 020100 010400|1 did, 1 edits #500 7000000, 2 did 2, 2 did, 1 ended|1 did, 1 edits #500 7000000, 2 did 2, 2 did, 1 ended, 2 ended";

/// The history to which a restart over these bytes comes.
fn comes_to(alloc: Global, bytes: &[u8]) -> Result<String, Fail> {
    match header_of_blocks(alloc, Version::Two, "", LEFT, RIGHT) {
        Ok(header) => restarted(alloc, &header, bytes),
        Err(fail) => Err(fail),
    }
}

/// The row as it is found.
fn found(alloc: Global, headers: &Headers, row: &str) -> Result<String, Fail> {
    let (text, _) = row.split_once('|').unwrap_or((row, ""));
    let journal = journal_of(alloc, headers, text)?;
    let held = recovered(alloc, journal.as_slice())?;
    let whole = comes_to(alloc, journal.as_slice())?;
    Ok(format!(in alloc; "{text}|{held}|{whole}")?)
}

#[test]
fn a_run_goes_on_behind_an_edit(rt: HostRuntime) -> Result<(), Fail> {
    let alloc = rt.alloc();
    let headers = headers_of(alloc, &format!(in alloc; "|{LEFT}|{RIGHT}")?)?;
    for row in ROWS.lines() {
        assert_eq!(&rt; found(alloc, &headers, row)?.as_str(), row);
    }
    Ok(())
}
