//! Tests of macro_expr and macro_eval by long texts: a million operators, which take no deep stack,
//! long sums in five brackets, and one variable too many.

use crate::trees::expression;
use crate::values::{answer, is_due};
use std::alloc::{AllocError, Global};
use std::test::Fail;

/// `FIRST..OPERATORS -> VALUE`: half a million times two operators of one rank, with their
/// operands, behind the first operand.
const LONG: &str = "\
1..+1-1 -> 1
-1..-1-1 -> -1000001
1..*2/2 -> 1
7.. AND 7 MOD 8 -> 7";

/// `COUNT LAST -> ANSWER`: so many variables added up, what follows them, and how the tree begins,
/// or the refusal.
const CROWDED: &str = "\
31 #1 -> (
32 #1 -> 25
33  -> 25
33 X -> 23";

/// The text, what stands behind it so many times, and the last piece.
fn chained(
    alloc: Global,
    first: &str,
    piece: &str,
    times: usize,
    last: &str,
) -> Result<String, AllocError> {
    let chain = piece.repeat(alloc, times)?;
    format!(in alloc; "{first}{chain}{last}")
}

/// Whether the row's chain has its value, and one that breaks off at its end is refused.
fn takes_no_stack(alloc: Global, row: &str) -> Option<bool> {
    let (question, value) = row.split_once(" -> ")?;
    let (first, operators) = question.split_once("..")?;
    let whole = chained(alloc, first, operators, 500_000, "").ok()?;
    let (found, taken) = answer(alloc, whole.as_str(), &[])?;
    let cut = chained(alloc, first, operators, 500_000, "*").ok()?;
    let refused = answer(alloc, cut.as_str(), &[]).is_none();
    Some(taken == 0 && is_due(&found, value) && refused)
}

#[test]
fn a_million_operators_take_no_stack(rt: HostRuntime) {
    for row in LONG.lines() {
        assert!(rt; takes_no_stack(rt.alloc(), row) == Some(true), "{row}");
    }
}

/// A long sum in five brackets, each of them the last operand of a long product that ends a long
/// sum.
fn enclosed(alloc: Global) -> Result<String, AllocError> {
    let sum = chained(alloc, "2", "+1-1", 100_000, "+2")?;
    let product = chained(alloc, sum.as_str(), "*2/2", 100_000, "*[")?;
    let mut openings = product.as_str().repeat(alloc, 5)?;
    openings.push_str("1")?;
    chained(alloc, openings.as_str(), "+1*1-1*1", 100_000, "]]]]]")
}

#[test]
fn long_sums_stand_in_five_brackets(rt: HostRuntime) -> Result<(), Fail> {
    let text = enclosed(rt.alloc())?;
    let (found, taken) = answer(rt.alloc(), text.as_str(), &[]).ok_or("no tree")?;
    assert!(rt; taken == 0 && is_due(&found, "94"));
    Ok(())
}

/// Whether a sum of so many variables begins as the row says, or is refused so.
fn is_crowded(alloc: Global, row: &str) -> Option<bool> {
    let (question, wanted) = row.split_once(" -> ")?;
    let (count, last) = question.split_once(' ')?;
    let text = chained(alloc, "", "#1+", count.parse::<usize>().ok()?, last).ok()?;
    Some(
        expression(alloc, text.as_str())
            .as_str()
            .starts_with(wanted),
    )
}

#[test]
fn the_thirty_third_variable_is_too_many(rt: HostRuntime) {
    for row in CROWDED.lines() {
        assert!(rt; is_crowded(rt.alloc(), row) == Some(true), "{row}");
    }
}
