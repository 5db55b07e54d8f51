//! What the operands of a statement come to: the variable on its left side, a value, a condition,
//! and the sequence number of a jump. Each is evaluated over a scope and takes the reads that it
//! needs.
ghost use Rattle.std.specs.Prelude.{◌≡◌, List, IfOk};
ghost use Rattle.nc_number.specs.declared.value.Var.{Var};
ghost use Rattle.common_vars.specs.Variables.{IsVariable};
ghost use Rattle.macro_expr.specs.Tree.{variable_of, test_of, aim_of, evaluated_name, evaluated_test, evaluated_aim};
ghost use Rattle.macro_eval.specs.Meaning.{variable_number, whole_number};
ghost use Rattle.block_values.specs.Readings.{variable_in};
ghost use Rattle.block_values.specs.Outcomes.{reading_none, value_with};
ghost use Rattle.block_values.specs.Seen.{outcome_of};
ghost use Rattle.block_values.specs.Operands.{variable_or_fault, number_named, variable_with, length_of, relation_with, condition_with, sequence_number, sequence_with};

use crate::outcome::Stop;
use crate::readings::variable_in;
use common_vars::Variable;
use macro_eval::{Code, Eval, Scope, evaluate, holds, variable_number, whole_number};
use macro_expr::{Cond, Rel, Target, VarRef};
use modal_state::Modal;
use nc_number::{Cause, Var, to_increment};

/// The variable of a number, or alarm 30 if there is none.
fn existing(modal: &Modal, number: u32) -> Result<Variable, Cause>
    ensures existing { result ≡ variable_or_fault (variable_in modal.now number) }
    ensures exists { IfOk result IsVariable }
{
    match variable_in(modal, number) {
        Some(variable) => Ok(variable),
        None => Err(Cause::VariableRange),
    }
}

/// The variable whose number was computed; or alarm 4 if that is not whole, 30 if it names none.
fn number_named(modal: &Modal, value: &Var) -> Result<Variable, Cause>
    ensures named { result ≡ number_named modal.now (variable_number value.now) }
    ensures exists { IfOk result IsVariable }
{
    match variable_number(value) {
        Ok(number) => existing(modal, number),
        Err(cause) => Err(cause),
    }
}

/// The variable, or its cause as an alarm that stops the block.
fn variable_or_stop(variable: Result<Variable, Cause>) -> Result<Variable, Stop>
    ensures same { (left : List Var) → outcome_of (λ found. found) result left ≡ reading_none variable left }
    ensures exists { IfOk variable IsVariable → IfOk result IsVariable }
{
    match variable {
        Ok(variable) => Ok(variable),
        Err(cause) => Err(Stop::of(cause)),
    }
}

/// A computed sequence number: alarm 4 if it is not whole, and 50 if it is below 0.
fn sequence_number(value: &Var) -> Result<u32, Cause>
    ensures { result ≡ sequence_number (whole_number value.now) }
{
    match whole_number(value) {
        Ok(number) if number < 0 => Err(Cause::NoSequence),
        Ok(number) => Ok(number.unsigned_abs() as u32),
        Err(cause) => Err(cause),
    }
}

/// The sequence number, or its cause as an alarm that stops the block.
fn sequence_or_stop(number: Result<u32, Cause>) -> Result<u32, Stop>
    ensures { (left : List Var) → outcome_of (λ found. found) result left ≡ reading_none number left }
{
    match number {
        Ok(number) => Ok(number),
        Err(cause) => Err(Stop::of(cause)),
    }
}

/// A value in millimetres as a length in 0.001 mm, halves away from zero; a vacant one counts as 0.
pub fn length_of(value: &Var) -> i64
    ensures { result ≡ length_of value.now }
{
    to_increment(value.or_zero())
}

/// The value of an expression, and the reads that are left: or the shared variable that must be
/// read next, or the alarm.
///
/// Alarms: those of [`evaluate`].
pub fn value_taken<'a, S: Scope>(
    code: &Code,
    scope: &S,
    reads: &'a [Var],
) -> (Result<Var, Stop>, &'a [Var])
    ensures { outcome_of (λ value. value) result.0 result.1.now ≡ value_with (S.table scope.now) code.now reads.now }
{
    let (answer, left) = evaluate(code, scope, reads);
    match answer {
        Eval::Got(value) => (Ok(value), left),
        Eval::Need(variable) => (Err(Stop::Needs(variable)), left),
        Eval::Fault(number) => (Err(Stop::fault(number)), left),
    }
}

/// The variable on the left side of an assignment, whose number is evaluated if it is not written
/// out.
///
/// Alarms: those of [`evaluate`], 4 of a number that is not whole, and 30 of a variable that does
/// not exist.
pub fn variable_taken<'a, S: Scope>(
    modal: &Modal,
    name: &VarRef,
    number: &[Code],
    scope: &S,
    reads: &'a [Var],
) -> (Result<Variable, Stop>, &'a [Var])
    requires { number.now ≡ evaluated_name (variable_of name.now) }
    ensures named { outcome_of (λ found. found) result.0 result.1.now
        ≡ variable_with (S.table scope.now) modal.now (variable_of name.now) reads.now }
    ensures exists { IfOk result.0 IsVariable }
{
    match name {
        VarRef::Fixed(n) => (variable_or_stop(existing(modal, *n)), reads),
        VarRef::Computed(_) => {
            let (answer, left) = value_taken(&number[0], scope, reads);
            match answer {
                Ok(value) => (variable_or_stop(number_named(modal, &value)), left),
                Err(stop) => (Err(stop), left),
            }
        }
    }
}

/// Whether a condition holds whose left side is evaluated already.
fn relation_taken<'a, S: Scope>(
    rel: Rel,
    left: Var,
    right: &Code,
    scope: &S,
    reads: &'a [Var],
) -> (Result<bool, Stop>, &'a [Var])
    ensures { outcome_of (λ holds. holds) result.0 result.1.now
        ≡ relation_with (S.table scope.now) rel left right.now reads.now }
{
    let (answer, rest) = value_taken(right, scope, reads);
    match answer {
        Ok(right) => (Ok(holds(rel, left, right)), rest),
        Err(stop) => (Err(stop), rest),
    }
}

/// Whether a condition holds; its left side is evaluated before its right one.
///
/// Alarms: those of [`evaluate`].
pub fn condition_taken<'a, S: Scope>(
    condition: &Cond,
    codes: &[Code],
    scope: &S,
    reads: &'a [Var],
) -> (Result<bool, Stop>, &'a [Var])
    requires { codes.now ≡ evaluated_test (test_of condition.now) }
    ensures { outcome_of (λ holds. holds) result.0 result.1.now
        ≡ condition_with (S.table scope.now) (test_of condition.now) reads.now }
{
    let (answer, behind_left) = value_taken(&codes[0], scope, reads);
    match answer {
        Ok(left) => relation_taken(condition.rel, left, &codes[1], scope, behind_left),
        Err(stop) => (Err(stop), behind_left),
    }
}

/// The sequence number to which a jump goes, which is evaluated if it is not written out.
///
/// Alarms: those of [`evaluate`], 4 of a number that is not whole, and 50 of one below 0.
pub fn sequence_taken<'a, S: Scope>(
    target: &Target,
    number: &[Code],
    scope: &S,
    reads: &'a [Var],
) -> (Result<u32, Stop>, &'a [Var])
    requires { number.now ≡ evaluated_aim (aim_of target.now) }
    ensures { outcome_of (λ found. found) result.0 result.1.now
        ≡ sequence_with (S.table scope.now) (aim_of target.now) reads.now }
{
    match target {
        Target::Fixed(n) => (Ok(*n), reads),
        Target::Computed(_) => {
            let (answer, left) = value_taken(&number[0], scope, reads);
            match answer {
                Ok(value) => (sequence_or_stop(sequence_number(&value)), left),
                Err(stop) => (Err(stop), left),
            }
        }
    }
}
