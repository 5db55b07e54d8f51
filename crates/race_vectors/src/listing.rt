//! The list of the races of a pair, as text.
//! rows.rt and made.rt use it.
use nc_outside::VecSink;
use nc_verify::verdict;
use race_report::{RaceList, races, write_races};
use std::alloc::Global;
use std::test::Fail;

/// The most bytes that settings may have: a copy of `LONGEST_SETTINGS` of lathe_calls
/// (src/pair_texts.rt), which this crate does not use.
const LONGEST_SETTINGS: usize = 65_536;

/// The bytes of a text, with each `~` as the end of a line.
pub(crate) fn lines_of(alloc: Global, text: &str) -> Result<Vec<u8>, Fail> {
    let mut out = Vec::new(alloc);
    for byte in text.as_bytes() {
        out.push(if *byte == b'~' { b'\n' } else { *byte })?;
    }
    Ok(out)
}

/// The races of a pair, or none if it is not accepted.
fn list_of(alloc: Global, left: &[u8], right: &[u8], settings: &[u8]) -> Option<RaceList> {
    if settings.len() > LONGEST_SETTINGS {
        return None;
    }
    match verdict(alloc, left, right, settings) {
        Ok(pair) => races(alloc, &pair).ok(),
        Err(_) => None,
    }
}

/// The list of the races of a pair as text, or `refused`.
pub(crate) fn listed(
    alloc: Global,
    left: &[u8],
    right: &[u8],
    settings: &[u8],
) -> Result<Vec<u8>, Fail> {
    let Some(list) = list_of(alloc, left, right, settings) else {
        return lines_of(alloc, "refused");
    };
    let mut sink = VecSink::new(alloc, &[])?;
    write_races(&list, &mut sink)?;
    Ok(Vec::from_slice(alloc, sink.bytes())?)
}
