//! The evaluation of the code of a macro expression; stepping.rt does one instruction. `eval` and
//! `count_reads` are for tests.
ghost use Rattle.std.specs.Prelude.{◌≡◌, ◌+◌, ◌-◌, ◌<◌, ◌≤◌, ℕ, List, [], true, length, Result};
ghost use Rattle.nc_number.specs.declared.value.Var.{Var};
ghost use Rattle.macro_expr.specs.Tree.{Tree, variables};
ghost use Rattle.macro_eval.specs.declared.scope.Look.{Look};
ghost use Rattle.macro_eval.specs.declared.scope.VarFault.{VarFault};
ghost use Rattle.macro_eval.specs.Meaning.{meaning};
ghost use Rattle.macro_eval.specs.Postfix.{fits, run};

use crate::code::{Code, Instr, OPERANDS};
use crate::operands::Operands;
use crate::scope::{Eval, Scope};
use crate::stepping::{is_join, is_operand, operand_value, pair_value, step};
use nc_number::Var;

/// The answer of any code, and the reads that are left, by a stack of operands. `evaluate` takes
/// this way if no shorter one will do.
#[inline(never)]
fn run<'a, S: Scope>(instrs: &[Instr], scope: &S, reads: &'a [Var]) -> (Eval, &'a [Var])
    requires { fits OPERANDS instrs.now 0 ≡ true }
    ensures { (result.0, result.1.now) ≡ run (S.table scope.now) instrs.now [] reads.now }
{
    let mut stack = Operands::new();
    let mut left = reads;
    for instr in instrs {
        let (answer, rest) = step(scope, instr, &mut stack, left);
        left = rest;
        match answer {
            Eval::Got(value) => stack.push(value),
            Eval::Need(variable) => return (Eval::Need(variable), left),
            Eval::Fault(number) => return (Eval::Fault(number), left),
        }
    }
    (Eval::Got(stack.pop()), left)
}

/// The value of the expression, the shared variable that must be read next, or an alarm; and the
/// reads that are left. Each shared variable takes the next of `reads`, in the order of the code.
/// An operand alone, or two and their operator, need no stack.
///
/// Alarms: 1 a result past the range, 2 a division by 0, 3 the root of a negative value, 4 a
/// variable's number with a fraction or an operand of AND, OR or XOR that is no whole number from 0
/// on, 30 a variable that does not exist or can't be read.
#[tactic(auto, using(crate::proofs::Compiled::run_is_meaning))]
pub fn evaluate<'a, S: Scope>(code: &Code, scope: &S, reads: &'a [Var]) -> (Eval, &'a [Var])
    ensures { (result.0, result.1.now) ≡ meaning (S.table scope.now) code.now reads.now }
{
    match code.instrs() {
        [left, right, join] if is_operand(left) && is_operand(right) && is_join(join) => pair_value(
            scope, left, right, join, reads,
        ),
        [only] if is_operand(only) => operand_value(scope, only, reads),
        instrs => run(instrs, scope, reads),
    }
}

/// The answer of [`evaluate`] alone.
pub fn eval<S: Scope>(code: &Code, scope: &S, reads: &[Var]) -> Eval
    ensures { result ≡ (meaning (S.table scope.now) code.now reads.now).0 }
{
    evaluate(code, scope, reads).0
}

/// How many of `reads` the evaluation takes.
pub fn count_reads<S: Scope>(code: &Code, scope: &S, reads: &[Var]) -> usize
    ensures { result ≡ length reads.now - length (meaning (S.table scope.now) code.now reads.now).1 }
{
    reads
        .len()
        .saturating_sub(evaluate(code, scope, reads).1.len())
}

/// A law: each variable of an expression takes at most one read, and a read is needed only if fewer
/// were given than it names variables.
#[tactic(auto, using(crate::proofs::TakenReads::takes, crate::proofs::TakenReads::needs))]
pub fn each_variable_takes_one_read_at_most()
    ensures takes { (table : ℕ → Result Look VarFault) (tree : Tree) (reads : List Var)
        → length reads ≤ length (meaning table tree reads).1 + variables tree }
    ensures needs { (table : ℕ → Result Look VarFault) (tree : Tree) (reads : List Var) (n : ℕ)
        → (meaning table tree reads).0 ≡ Eval.Need n → length reads < variables tree }
{}
