//! Tests of nc_text: texts, and the programs, blocks and words that are read in them, in whatever
//! pieces they come.
use crate::call::number;
use crate::tape::{read_in, refusal};
use nc_number::Failing;
use nc_text::{Block, Body, Program, Word};
use std::alloc::{AllocError, Global};
use std::process::Abort;
use std::test::Fail;

/// The skip switches that are set, 2 for the first one, 4 for the second and on; a text, with `~`
/// for the end of a line; and what is read: each program and each block with its line, and each
/// word with the places before and behind its value, or the refusal. The rows from the leader `a`
/// on come in pairs that read the same.
const ROWS: &str = "\
4: HEAD~%~o1 (a)~n10 g0 x1.5;~/2 g1 z-.5 f.1~%~ = O1 line 3, line 4 N10 G0 5-6 X1.5 8-11
0: HEAD~%~o1 (a)~n10 g0 x1.5;~/2 g1 z-.5 f.1~%~ = O1 line 3, line 4 N10 G0 5-6 X1.5 8-11, line 5 G1 4-5 Z-.5 7-10 F.1 12-14
2: %~O1~/N123456789 X1~%~ = O1 line 2
2: %~O1~/N100000~%~ = O1 line 2
2: %~/X1~O1~%~ = O1 line 3
2: %~/X1~%~ = refused 13 line 1
2: %~O1~/1X$~%~ = refused 10 line 3
2: %~O1~/X~%~ = refused 11 line 3
2: %~O1~/N123456789 X~%~ = refused 11 line 3
2: %~O1~/O2~%~ = refused 11 line 3
2: %~O1~/(A~%~ = refused 12 line 3
2: %~O1~/2N100000~%~ = refused 64 line 3
2: a~%b~O1~X1~%c~ = O1 line 3, line 4 X1 1-2
2: d~%~O1~X1~%~ = O1 line 3, line 4 X1 1-2
2: %~o1~n5 x-1.~%~ = O1 line 2, line 3 N5 X-1. 4-7
2: %~O1~N5 X-1.~%~ = O1 line 2, line 3 N5 X-1. 4-7
2: %\r~O1\r~\r~X1\r~%\r~ = O1 line 2, line 4 X1 1-2
2: %~O1~~X1~%~ = O1 line 2, line 4 X1 1-2
2: %\t~O1 ~X1\t ;\t~%~ = O1 line 2, line 3 X1 1-2
2: %~O1~X1~%~ = O1 line 2, line 3 X1 1-2
2: %~O1~ (A)\t(B)~X1~%~ = O1 line 2, line 4 X1 1-2
2: %~O1~~X1~%~ = O1 line 2, line 4 X1 1-2
2: %~O1~/N9 X9.~X1~%~ = O1 line 2, line 4 X1 1-2
2: %~O1~~X1~%~ = O1 line 2, line 4 X1 1-2";

/// The bytes of a value.
fn put_value(out: &mut String, value: &[u8]) -> Result<(), AllocError> {
    for byte in value {
        out.push(char::from(*byte))?;
    }
    Ok(())
}

/// Each word with its value, and the places before and behind it.
fn put_words(out: &mut String, words: &[Word]) -> Result<(), AllocError> {
    for word in words {
        let (letter, start, end) = (char::from(word.letter), word.start, word.end);
        write!(out, " {letter}")?;
        put_value(out, word.text.as_slice())?;
        write!(out, " {start}-{end}")?;
    }
    Ok(())
}

/// A block with its line and its sequence number.
fn put_block(out: &mut String, block: &Block) -> Result<(), AllocError> {
    let line = block.line;
    write!(out, ", line {line}")?;
    if let Some(number) = block.sequence {
        write!(out, " N{number}")?;
    }
    match &block.body {
        Body::Words(words) => put_words(out, words.as_slice()),
        Body::Statement(_) => out.push_str(" a statement"),
    }
}

/// A program with its line, and its blocks.
fn put_program(out: &mut String, program: &Program) -> Result<(), AllocError> {
    let (number, line) = (program.number, program.line);
    write!(out, "O{number} line {line}")?;
    for block in program.blocks.as_slice() {
        put_block(out, block)?;
    }
    Ok(())
}

/// The programs of a tape, one behind the other.
fn listing(alloc: Global, programs: &[Program]) -> Result<String, AllocError> {
    let mut out = String::new(alloc);
    for program in programs {
        put_program(&mut out, program)?;
    }
    Ok(out)
}

/// What is read of a text that comes in pieces of that length.
fn answer(alloc: Global, skips: u16, text: &str, step: usize) -> Result<String, AllocError> {
    match read_in(alloc, skips, text, step) {
        Ok(tape) => listing(alloc, tape.as_slice()),
        Err(Failing::Fault(fault)) => refusal(alloc, fault.number, fault.line),
        Err(Failing::NoMemory) => String::from_str(alloc, "no memory"),
    }
}

/// Whether the text of a row, in pieces of that length, is read as the row wants.
fn holds(alloc: Global, row: &str, step: usize) -> Result<bool, AllocError> {
    let (skips, text) = row.split_once(": ").unwrap_or(("", row));
    let (text, wanted) = text.split_once(" = ").unwrap_or((text, ""));
    let got = answer(alloc, number(Some(skips)), text, step)?;
    Ok(got.as_str() == wanted)
}

/// Whether each row holds of a text that comes in pieces of that length.
fn all_hold(rt: &impl Abort, alloc: Global, step: usize) -> Result<(), Fail> {
    for row in ROWS.lines() {
        assert!(rt; holds(alloc, row, step)?, "{row}");
    }
    Ok(())
}

#[test]
fn what_is_read_in_a_text(rt: HostRuntime) -> Result<(), Fail> {
    all_hold(&rt, rt.alloc(), 1_000_000)?;
    all_hold(&rt, rt.alloc(), 7)?;
    all_hold(&rt, rt.alloc(), 1)
}

/// What is read of a text of so many bytes, none of which is of a tape.
fn long_answer(alloc: Global, size: usize) -> Result<String, AllocError> {
    let text = "x".repeat(alloc, size)?;
    answer(alloc, 0, text.as_str(), 65_536)
}

#[test]
fn a_tape_has_four_million_bytes_at_most(rt: HostRuntime) -> Result<(), Fail> {
    assert_eq!(&rt;
        long_answer(rt.alloc(), 4_194_304)?.as_str(),
        "refused 13 line 1"
    );
    assert_eq!(&rt;
        long_answer(rt.alloc(), 4_194_305)?.as_str(),
        "refused 17 line 1"
    );
    Ok(())
}
