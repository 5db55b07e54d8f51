//! Tests of the races of made pairs: a made pair has none, and a made tape beside itself has one.
//! As tape_maker makes them, each round of a path has 98 cuts, a statement on a variable and a
//! wait; these tests change with it. Path 1 counts in #501 in rounds 1, 3, 5 and so on; path 2
//! copies it to #502 in rounds 2, 4, 6 and so on. The other rounds use variables of the path's own.
use crate::listing::{lines_of, listed};
use std::alloc::Global;
use std::test::Fail;
use tape_maker::make_tapes;

/// Whether the list of races of a pair is this text, in which `~` ends a line.
fn has_races(alloc: Global, left: &[u8], right: &[u8], text: &str) -> Result<bool, Fail> {
    let wanted = lines_of(alloc, text)?;
    let got = listed(alloc, left, right, b"")?;
    Ok(got.as_slice() == wanted.as_slice())
}

/// Whether the made pair of a number has no race, in either order.
fn has_none(alloc: Global, number: u32) -> Result<bool, Fail> {
    let (left, right) = make_tapes(alloc, number)?;
    let pair = has_races(alloc, left.as_slice(), right.as_slice(), "races 0~")?;
    let exchanged = has_races(alloc, right.as_slice(), left.as_slice(), "races 0~")?;
    Ok(pair && exchanged)
}

/// Whether a made tape beside itself has the race of its own variable: path 1's writes #501 before
/// the first meeting, at line 103, and path 2's #502 before the second, at line 203.
fn has_its_own(alloc: Global, number: u32) -> Result<bool, Fail> {
    let (left, right) = make_tapes(alloc, number)?;
    let first = "races 1~#501 after 0 path 1 line 103 path 2 line 103~";
    let second = "races 1~#502 after 1 path 1 line 203 path 2 line 203~";
    let of_left = has_races(alloc, left.as_slice(), left.as_slice(), first)?;
    let of_right = has_races(alloc, right.as_slice(), right.as_slice(), second)?;
    Ok(of_left && of_right)
}

#[test]
fn made_pairs_have_no_race(rt: HostRuntime) -> Result<(), Fail> {
    for number in [0u32, 999_999] {
        assert!(&rt; has_none(rt.alloc(), number)?, "{number}");
    }
    Ok(())
}

#[test]
fn a_made_tape_races_with_itself(rt: HostRuntime) -> Result<(), Fail> {
    for number in [0u32, 7] {
        assert!(&rt; has_its_own(rt.alloc(), number)?, "{number}");
    }
    Ok(())
}
