//! One instruction of the evaluation of a macro expression, as specs/Postfix defines it. running.rt
//! calls it in order.
ghost use Rattle.std.specs.Prelude.{◌≡◌, ◌≤◌, ◌==◌, [], ◌∷◌, List, length};
ghost use Rattle.nc_number.specs.declared.value.Var.{Var};
ghost use Rattle.macro_eval.specs.Meaning.{eval_of_number, value_with_sign, function_value, operator_value, looked_at, looked_up};
ghost use Rattle.macro_eval.specs.Postfix.{takes, step, run};

use crate::code::Instr;
use crate::operands::Operands;
use crate::scope::{Eval, Look, Scope};
use crate::whole::variable_number;
use macro_expr::{Fun, Op};
use nc_number::{
    Cause, NumberFault, Value, Var, abs, add, bit_and, bit_or, bit_xor, div, fix, fup, modulo, mul,
    neg, round, sqrt, sub,
};

/// A number that was calculated, or the alarm of its fault.
fn made(number: Result<Value, NumberFault>) -> Eval
    ensures { result ≡ eval_of_number number }
{
    match number {
        Ok(value) => Eval::Got(Var::Is(value)),
        Err(fault) => Eval::Fault(fault.number()),
    }
}

/// The value after a sign; a vacant one counts as 0.
fn signed(minus: bool, operand: &Var) -> Eval
    ensures { result ≡ value_with_sign minus operand.now }
{
    let value = operand.or_zero();
    Eval::Got(Var::Is(if minus { neg(value) } else { value }))
}

/// What the function makes of a number.
fn function_value(function: Fun, value: Value) -> Result<Value, NumberFault>
    ensures { result ≡ function_value function value }
{
    match function {
        Fun::Sqrt => sqrt(value),
        Fun::Abs => Ok(abs(value)),
        Fun::Fix => Ok(fix(value)),
        Fun::Fup => fup(value),
        Fun::Round => round(value),
    }
}

/// What the operator makes of two numbers.
fn operator_value(op: Op, a: Value, b: Value) -> Result<Value, NumberFault>
    ensures { result ≡ operator_value op a b }
{
    match op {
        Op::Add => add(a, b),
        Op::Sub => sub(a, b),
        Op::BitOr => bit_or(a, b),
        Op::BitXor => bit_xor(a, b),
        Op::Mul => mul(a, b),
        Op::Div => div(a, b),
        Op::BitAnd => bit_and(a, b),
        Op::Modulo => modulo(a, b),
    }
}

/// What the variable gives: its value, the next read if the paths share it, or alarm 30; and the
/// reads that are left.
fn looked_at<'a, S: Scope>(scope: &S, variable: u32, reads: &'a [Var]) -> (Eval, &'a [Var])
    ensures { (result.0, result.1.now) ≡ looked_at (S.table scope.now) variable reads.now }
{
    match scope.look(variable) {
        Ok(Look::Is(value)) => (Eval::Got(value), reads),
        Ok(Look::Shared) => match reads {
            [first, left @ ..] => (Eval::Got(*first), left),
            [] => (Eval::Need(variable), reads),
        },
        Err(_) => (Eval::Fault(Cause::VariableRange.number()), reads),
    }
}

/// What the variable gives whose number was calculated, and the reads that are left. Alarm 4 if the
/// number has a fraction, 30 if it is below 0 or that variable can't be read.
fn looked_up<'a, S: Scope>(scope: &S, number: &Var, reads: &'a [Var]) -> (Eval, &'a [Var])
    ensures { (result.0, result.1.now) ≡ looked_up (S.table scope.now) number.now reads.now }
{
    match variable_number(number) {
        Ok(variable) => looked_at(scope, variable, reads),
        Err(cause) => (Eval::Fault(cause.number()), reads),
    }
}

/// Whether the instruction takes no operand: a number, or a variable whose number is written out.
pub(crate) fn is_operand(instr: &Instr) -> bool
    ensures { result ≡ (takes instr.now == 0) }
{
    matches!(instr, Instr::Number(_) | Instr::Variable(_))
}

/// What an instruction that takes no operand gives, and the reads that are left.
pub(crate) fn operand_value<'a, S: Scope>(
    scope: &S,
    instr: &Instr,
    reads: &'a [Var],
) -> (Eval, &'a [Var])
    requires { takes instr.now ≡ 0 }
    ensures { (stack : List Var)
        → step (S.table scope.now) instr.now stack reads.now ≡ ((result.0, result.1.now), stack) }
{
    match instr {
        Instr::Variable(variable) => looked_at(scope, *variable, reads),
        Instr::Number(value) => (Eval::Got(Var::Is(*value)), reads),
        _ => unreachable!(),
    }
}

/// Whether the instruction is an operator between two operands.
pub(crate) fn is_join(instr: &Instr) -> bool
    ensures { result ≡ (takes instr.now == 2) }
{
    matches!(instr, Instr::Join(_))
}

/// What an operator makes of two instructions that take no operand, and the reads that are left.
pub(crate) fn pair_value<'a, S: Scope>(
    scope: &S,
    left: &Instr,
    right: &Instr,
    join: &Instr,
    reads: &'a [Var],
) -> (Eval, &'a [Var])
    requires left { takes left.now ≡ 0 }
    requires right { takes right.now ≡ 0 }
    requires join { takes join.now ≡ 2 }
    ensures { (result.0, result.1.now)
        ≡ run (S.table scope.now) (left.now ∷ right.now ∷ join.now ∷ []) [] reads.now }
{
    let (first, behind) = operand_value(scope, left, reads);
    let Eval::Got(a) = first else {
        return (first, behind);
    };
    let (second, rest) = operand_value(scope, right, behind);
    let Eval::Got(b) = second else {
        return (second, rest);
    };
    match join {
        Instr::Join(op) => (made(operator_value(*op, a.or_zero(), b.or_zero())), rest),
        _ => unreachable!(),
    }
}

/// One instruction: its answer, and the reads that are left. It takes its operands off the stack.
pub(crate) fn step<'a, S: Scope>(
    scope: &S,
    instr: &Instr,
    stack: &mut Operands,
    reads: &'a [Var],
) -> (Eval, &'a [Var])
    requires { takes instr.now ≤ length stack.old }
    ensures { ((result.0, result.1.now), stack.new) ≡ step (S.table scope.now) instr.now stack.old reads.now }
{
    match instr {
        Instr::Number(value) => (Eval::Got(Var::Is(*value)), reads),
        Instr::Variable(variable) => looked_at(scope, *variable, reads),
        Instr::LookUp => {
            let number = stack.pop();
            looked_up(scope, &number, reads)
        }
        Instr::Sign(minus) => {
            let operand = stack.pop();
            (signed(*minus, &operand), reads)
        }
        Instr::Call(function) => {
            let operand = stack.pop();
            (made(function_value(*function, operand.or_zero())), reads)
        }
        Instr::Join(op) => {
            let right = stack.pop();
            let left = stack.pop();
            (
                made(operator_value(*op, left.or_zero(), right.or_zero())),
                reads,
            )
        }
    }
}
