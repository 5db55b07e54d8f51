//! Bytes as text: hexadecimal digits in words, where `3x01` is 01 three times, and names for what
//! stands in many rows. The tables of tests of this crate write their files so.
use std::alloc::{AllocError, Global};

/// The first three entries of a file of gates: of each its open gate, its length and its body.
const THREE: &str = "010000000141010000000401010100010000000401020100";

/// Those three entries of a file of gates, and a fourth of eight bytes.
const FOUR: &str = "01000000014101000000040101010001000000040102010001000000080101010100000001";

/// The tape `%`, `O1`, `#500=#500+1`, `M30`, `%` of 23 bytes.
const TAPE: &str = "250a4f310a233530303d233530302b310a4d33300a250a";

/// What stands in a header behind its mark (`TWIN` and the version): no settings, and the tape
/// twice.
const TEXTS: &str =
    "0000000000000017250a4f310a233530303d233530302b310a4d33300a250a00000017250a4f310a233530303d233530302b310a4d33300a250a";

/// The entry of a header of version 1 with `TEXTS`, which has 64 bytes itself.
const HEADER: &str =
    "01000000405457494e00010000000000000017250a4f310a233530303d233530302b310a4d33300a250a00000017250a4f310a233530303d233530302b310a4d33300a250a";

/// The entry of a header of version 2 with `TEXTS`.
const HEADER2: &str =
    "01000000405457494e00020000000000000017250a4f310a233530303d233530302b310a4d33300a250a00000017250a4f310a233530303d233530302b310a4d33300a250a";

/// What stands behind `TWIN` and the version in a header of short texts: the settings `s`, and the
/// tapes `l1` and `r22`.
const SHORT: &str = "0000000173000000026c3100000003723232";

/// The entry of a header of version 2 with `SHORT`, which has 24 bytes itself.
const BRANCHED: &str = "01000000185457494e00020000000173000000026c3100000003723232";

/// The record of an edit of path 1: its work offset 1, that of G54, gets X-1. Z5.
const G54: &str = "0106010001fffffffffffffc180000000000001388";

/// The record of an edit of path 1: #500 gets 7. restart_vectors (src/journal_rows.rt) has the same
/// bytes.
const SEVEN: &str = "01060401f4000000000000000100000000006acfc0";

/// The value of a hexadecimal digit.
fn digit(byte: u8) -> u8 {
    match byte {
        b'0'..=b'9' => byte - b'0',
        b'a'..=b'f' => byte - b'a' + 10,
        _ => 0,
    }
}

/// The byte that a pair of digits writes.
fn byte_of(pair: &[u8]) -> u8 {
    let mut byte = 0u8;
    for each in pair {
        byte = byte.wrapping_mul(16).wrapping_add(digit(*each));
    }
    byte
}

/// The bytes that digits write, two for each.
fn put_bytes(out: &mut Vec<u8>, digits: &str) -> Result<(), AllocError> {
    for pair in digits.as_bytes().chunks(2) {
        out.push(byte_of(pair))?;
    }
    Ok(())
}

/// The digits that a name stands for, or those of the word itself.
fn digits_of(word: &str) -> &str {
    match word {
        "THREE" => THREE,
        "FOUR" => FOUR,
        "HEADER" => HEADER,
        "HEADER2" => HEADER2,
        "SHORT" => SHORT,
        "BRANCHED" => BRANCHED,
        "G54" => G54,
        "SEVEN" => SEVEN,
        "TEXTS" => TEXTS,
        "TAPE" => TAPE,
        _ => word,
    }
}

/// The bytes that a word writes, as often as the number before the `x` says.
fn put_word(out: &mut Vec<u8>, word: &str) -> Result<(), AllocError> {
    let (times, word) = word.split_once('x').unwrap_or(("1", word));
    let digits = digits_of(word);
    for _time in 0..times.parse::<u32>().unwrap_or(0) {
        put_bytes(out, digits)?;
    }
    Ok(())
}

/// The bytes that the words write, one behind the other.
pub(crate) fn bytes_of(alloc: Global, text: &str) -> Result<Vec<u8>, AllocError> {
    let mut out = Vec::new(alloc);
    for word in text.split_whitespace() {
        put_word(&mut out, word)?;
    }
    Ok(out)
}

/// The bytes as digits.
pub(crate) fn put_digits(out: &mut String, bytes: &[u8]) -> Result<(), AllocError> {
    for byte in bytes {
        write!(out, "{byte:02x}")?;
    }
    Ok(())
}

/// The number that the text writes, or the greatest that there is.
pub(crate) fn number(text: &str) -> u64 {
    text.parse().unwrap_or(u64::MAX)
}
