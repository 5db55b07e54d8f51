//! Which variable a number names under the code system in force, and how a variable gives what it
//! holds: lengths in millimetres, codes and numbers in whole units.
ghost use Rattle.std.specs.Prelude.{◌≡◌, ℕ, ◌≤◌, ◌-ℤ◌, unsigned_abs, IfSome};
ghost use Rattle.nc_number.specs.Position.{IsPosition, IsWithin, travel};
ghost use Rattle.offset_store.specs.Offsets.{shift_travel};
ghost use Rattle.common_vars.specs.Variables.{IsVariable, variable_of};
ghost use Rattle.block_values.specs.Readings.{is_there, variable_in, part, or_vacant, in_units, in_millimetres, code_in_force};

use common_vars::{AxisLetter, Variable, a_variable_has_one_number, variable_of};
use local_levels::LOCALS;
use modal_state::Modal;
use nc_number::{Point, Value, Var};

/// The variable of a number, if there is one.
fn known_variable(number: u32) -> Option<Variable>
    ensures named { result ≡ variable_of number }
    ensures exists { IfSome result IsVariable }
{
    a_variable_has_one_number();
    variable_of(number)
}

/// Whether the system whose codes are in force has this variable: the code of a modal group exists
/// only if the system has the group, every other variable always.
fn is_there(modal: &Modal, variable: Variable) -> bool
    ensures { result ≡ is_there modal.now variable }
{
    match variable {
        Variable::Code(group) => modal.code(group).is_some(),
        _ => true,
    }
}

/// The variable of a number in the system whose codes are in force, if there is one.
///
/// A local variable is told without a look at the others, since loops count by one.
#[tactic(auto, using(crate::proofs::Locals::local_in))]
pub fn variable_in(modal: &Modal, number: u32) -> Option<Variable>
    ensures named { result ≡ variable_in modal.now number }
    ensures exists { IfSome result IsVariable }
{
    if number >= 1 && number <= LOCALS as u32 {
        return Some(Variable::Local(number as u8));
    }
    any_variable_in(modal, number)
}

/// The variable of any number in the system whose codes are in force, if there is one.
#[inline(never)]
fn any_variable_in(modal: &Modal, number: u32) -> Option<Variable>
    ensures named { result ≡ variable_in modal.now number }
    ensures exists { IfSome result IsVariable }
{
    match known_variable(number) {
        Some(variable) if is_there(modal, variable) => Some(variable),
        _ => None,
    }
}

/// The part of a point along an axis.
pub fn part(axis: AxisLetter, point: &Point) -> i64
    ensures part { result ≡ part axis point.now }
    ensures within { (far : ℕ) → IsWithin far point.now → unsigned_abs result ≤ far }
{
    match axis {
        AxisLetter::X => point.x,
        AxisLetter::Z => point.z,
    }
}

/// A machine coordinate without the shift along its axis.
fn without(shift: i64, length: i64) -> i64
    requires shift { unsigned_abs shift ≤ shift_travel }
    requires length { unsigned_abs length ≤ travel }
    ensures { result ≡ length -ℤ shift }
{
    length - shift
}

/// The value as a variable holds it, vacant if there is none.
fn or_vacant(value: Option<Value>) -> Var
    ensures { result ≡ or_vacant value }
{
    match value {
        Some(value) => Var::Is(value),
        None => Var::Vacant,
    }
}

/// A number in whole units as the value of a variable.
pub fn in_units(number: u16) -> Var
    ensures { result ≡ in_units number }
{
    or_vacant(Value::of_units(i64::from(number)))
}

/// A length in 0.001 mm as the value of a variable, which is in millimetres.
pub fn in_millimetres(length: i64) -> Var
    ensures { result ≡ in_millimetres length }
{
    or_vacant(Value::of_increments(length))
}

/// The code of a modal group, as its variable gives it; vacant if none is in force.
pub fn code_in_force(code: Option<u16>) -> Var
    ensures { result ≡ code_in_force code }
{
    match code {
        Some(code) => in_units(code),
        None => Var::Vacant,
    }
}

/// The programmed position along an axis, as its variable gives it: the machine coordinate without
/// the shift, in millimetres.
pub fn programmed(axis: AxisLetter, shift: &Point, position: &Point) -> Var
    requires shift { IsWithin shift_travel shift.now }
    requires position { IsPosition position.now }
    ensures { result ≡ in_millimetres (part axis position.now -ℤ part axis shift.now) }
{
    in_millimetres(without(part(axis, shift), part(axis, position)))
}
