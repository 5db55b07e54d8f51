//! Tests of macro_eval: the value of each expression, or the variable that it needs, or its alarm.
//! levels.rt, long.rt and writes.rt take its helpers.
ghost use Rattle.number_vectors.specs.Sample.{sample_table};

use crate::literals::number;
use macro_eval::{
    Code, Eval, Look, Scope, VarFault, compile, compile_statement, count_reads, eval, evaluate,
    holds,
};
use macro_expr::{Rel, parse_expr, parse_statement};
use nc_number::{Value, Var};
use std::alloc::Global;

/// `TEXT -> ANSWER`: a value, `vacant`, the shared variable that must be read next, or an alarm.
const VALUES: &str = "\
2+3*4 -> 14
5 XOR 3 AND 1 -> 4
-7 MOD 3 -> -1
7 MOD [-3] -> 1
SQRT[2] -> 1.414213
ROUND[-2.5] -> -3
ROUND[2.4] -> 2
FIX[-2.9] -> -2
FUP[2.1] -> 3
ABS[-1.5] -> 1.5
99999999.999999+0.000001 -> alarm 1
99999999.999999 -> 99999999.999999
-99999999.999999 -> -99999999.999999
-99999999.999999-0.000001 -> alarm 1
99999999.999999+0.000001-1 -> alarm 1
1/3 -> 0.333333
2/3 -> 0.666667
1/0 -> alarm 2
1 MOD 0 -> alarm 2
1/#1 -> alarm 2
SQRT[-1] -> alarm 3
1.5 AND 1 -> alarm 4
-1 AND 1 -> alarm 4
99999999 OR 0 -> 99999999
10-4-3 -> 3
8/4/2 -> 1
-2*3+1 -> -5
[#1] -> vacant
#1 -> vacant
+#1 -> 0
-#1 -> 0
#1+2 -> 2
5 -> 5
#3 -> 3
#3-#2 -> 0.5
#9+#3 -> alarm 30
#3+#9 -> alarm 30
ABS[#1] -> 0
#[1+1] -> 2.5
#[#3] -> 3
#[#2] -> alarm 4
#9 -> alarm 30
#[#1] -> vacant
#[-1] -> alarm 30";

/// `COUNT TEXT -> ANSWER, TAKEN`: the first so many of the reads 2, 500 and vacant stand ready, and
/// so many are taken.
const READS: &str = "\
0 #500+#500 -> needs #500, 0
1 #500+#500 -> needs #500, 1
2 #500+#500 -> 502, 2
3 #500+#500 -> 502, 2
3 #500*#500+#500 -> 1000, 3
1 1/0+#500 -> alarm 2, 0
0 #500 -> needs #500, 0
1 #500 -> 2, 1
0 #3-#500 -> needs #500, 0
2 #500-#500 -> -498, 2
1 #9+#500 -> alarm 30, 0
1 #500+#9 -> alarm 30, 1
0 #500/0 -> needs #500, 0
1 #500/0 -> alarm 2, 1
1 #[#500] -> 2.5, 1
2 #[#500*0+500] -> 500, 2";

/// `TEXT -> ANSWER -> ANSWER ..`: what the statement evaluates, from left to right.
const ORDERS: &str = "\
#[#3]=4 -> 3 -> 4
#9=5 -> 5
IF [#1 EQ 2] THEN #[3]=#500 -> vacant -> 2 -> 3 -> needs #500
IF [1/0 EQ 2] GOTO #3 -> alarm 2 -> 2 -> 3
WHILE [2 LT #3] DO 1 -> 2 -> 3
GOTO 5";

/// The variables of the tests: `#0` and `#1` are vacant, `#2` is 2.5, `#3` is 3, `#500` is shared,
/// and there is no other. specs/Sample has the same table.
struct Sample;

impl Scope for Sample {
    ghost table = { λ _ v. sample_table v };

    fn look(&self, variable: u32) -> Result<Look, VarFault> {
        match variable {
            0 | 1 => Ok(Look::Is(Var::Vacant)),
            2 => Ok(Look::Is(Var::Is(Value::of(2_500_000).unwrap()))),
            3 => Ok(Look::Is(Var::Is(Value::of(3_000_000).unwrap()))),
            500 => Ok(Look::Shared),
            _ => Err(VarFault::Range),
        }
    }
}

/// The answer for a text, and how many reads it takes; none where it has no tree.
pub(crate) fn answer(alloc: Global, text: &str, reads: &[Var]) -> Option<(Eval, usize)> {
    let tree = parse_expr(alloc, text.as_bytes()).ok()?;
    let code = compile(alloc, &tree).ok()?;
    let taken = count_reads(&code, &Sample, reads);
    Some((eval(&code, &Sample, reads), taken))
}

/// Whether that is the answer that the text writes.
pub(crate) fn is_due(answer: &Eval, wanted: &str) -> bool {
    match answer {
        Eval::Got(Var::Vacant) => wanted == "vacant",
        Eval::Got(Var::Is(value)) => is_value(value, wanted),
        Eval::Need(variable) => is_behind("needs #", wanted, *variable),
        Eval::Fault(number) => is_behind("alarm ", wanted, u32::from(*number)),
    }
}

/// Whether the value is the number that the text writes.
fn is_value(value: &Value, wanted: &str) -> bool {
    match number(wanted) {
        Some(due) => due.micro() == value.micro(),
        None => false,
    }
}

/// Whether the text is the word and this number behind it.
fn is_behind(word: &str, wanted: &str, number: u32) -> bool {
    match wanted.strip_prefix(word) {
        Some(digits) => digits.parse::<u32>() == Ok(number),
        None => false,
    }
}

/// Whether the row's answer is due, without any read.
fn has_value(alloc: Global, row: &str) -> Option<bool> {
    let (text, wanted) = row.split_once(" -> ")?;
    let (answer, taken) = answer(alloc, text, &[])?;
    Some(taken == 0 && is_due(&answer, wanted))
}

#[test]
fn each_expression_has_its_value(rt: HostRuntime) {
    for row in VALUES.lines() {
        assert!(rt; has_value(rt.alloc(), row) == Some(true), "{row}");
    }
}

/// A variable that holds so many millionths; vacant past the range.
pub(crate) fn holding(micro: i64) -> Var {
    match Value::of(micro) {
        Some(value) => Var::Is(value),
        None => Var::Vacant,
    }
}

/// Whether the row's answer is due, and takes so many of the reads that stand ready.
fn takes_reads(alloc: Global, row: &str) -> Option<bool> {
    let (question, wanted) = row.split_once(" -> ")?;
    let (count, text) = question.split_once(' ')?;
    let (wanted, wanted_taken) = wanted.split_once(", ")?;
    let reads = [holding(2_000_000), holding(500_000_000), Var::Vacant];
    let some = reads.get(..count.parse::<usize>().ok()?)?;
    let (answer, taken) = answer(alloc, text, some)?;
    Some(wanted_taken.parse::<usize>() == Ok(taken) && is_due(&answer, wanted))
}

#[test]
fn each_shared_variable_takes_the_next_read(rt: HostRuntime) {
    for row in READS.lines() {
        assert!(rt; takes_reads(rt.alloc(), row) == Some(true), "{row}");
    }
}

/// Whether the codes come to the answers of the row, one behind the other, and to no other.
fn are_due(codes: &[Code], row: &str) -> Option<bool> {
    let mut wanted = row.split(" -> ");
    let _text = wanted.next()?;
    for code in codes {
        let (answer, _) = evaluate(code, &Sample, &[]);
        if !is_due(&answer, wanted.next()?) {
            return Some(false);
        }
    }
    Some(wanted.next().is_none())
}

/// Whether the codes of the row's statement come to its answers.
fn is_evaluated(alloc: Global, row: &str) -> Option<bool> {
    let text = row.split(" -> ").next()?;
    let statement = parse_statement(alloc, text.as_bytes()).ok()?;
    let list = compile_statement(alloc, &statement).ok()?;
    are_due(list.codes(), row)
}

#[test]
fn a_statement_is_evaluated_from_left_to_right(rt: HostRuntime) {
    for row in ORDERS.lines() {
        assert!(rt; is_evaluated(rt.alloc(), row) == Some(true), "{row}");
    }
}

#[test]
fn a_vacant_variable_is_not_zero(rt: HostRuntime) {
    let (zero, one, below) = (holding(0), holding(1), holding(-1));
    assert!(rt; holds(Rel::Eq, Var::Vacant, Var::Vacant) && holds(Rel::Ne, Var::Vacant, zero));
    assert!(rt; holds(Rel::Ge, Var::Vacant, zero) && holds(Rel::Lt, below, Var::Vacant));
    assert!(rt; holds(Rel::Le, one, one));
    assert!(rt; !holds(Rel::Eq, Var::Vacant, zero) && !holds(Rel::Gt, Var::Vacant, zero));
}

#[test]
fn a_variable_is_vacant_from_the_start(rt: HostRuntime) {
    let fresh = Var::default();
    assert!(rt; fresh == Var::Vacant && fresh.or_zero() == Value::zero());
    assert!(rt; holding(99_999_999_999_999).or_zero().micro() == 99_999_999_999_999);
}
