//! What a path holds of each variable, as a block begins: the scope over which block_values
//! evaluates. Writes are in statements.rt.
//! For this crate alone.
ghost use Rattle.std.specs.Prelude.{◌≡◌, ◌-ℤ◌, Ok};
ghost use Rattle.nc_number.specs.Position.{IsWithin};
ghost use Rattle.offset_store.specs.Offsets.{shift_travel};
ghost use Rattle.common_vars.specs.Variables.{IsVariable};
ghost use Rattle.block_values.specs.Readings.{part, in_units, in_millimetres, code_in_force, variable_in};
ghost use Rattle.path_state.specs.Looks.{look_of, value_or_shared, shift_now, is_shared};

use crate::path::PathState;
use block_values::{code_in_force, in_millimetres, in_units, part, programmed, variable_in};
use common_vars::{AxisLetter, Variable};
use local_levels::LOCALS;
use macro_eval::{Look, Scope, VarFault};
use nc_number::{Point, Var};

impl PathState {
    /// Whether both paths share the variable.
    pub(crate) fn shares(&self, v: u32) -> bool
        ensures { result ≡ is_shared self.now.fixed v }
    {
        (v >= 100 && v < 100 + self.fixed.shared100) || (v >= 500 && v < 500 + self.fixed.shared500)
    }

    /// The shift of the offsets in force, in 0.001 mm: what a machine coordinate has more than the
    /// programmed one.
    fn shift_now(&self) -> Point
        ensures shift { result ≡ shift_now self.now }
        ensures range { IsWithin shift_travel result }
    {
        self.offsets.shift(self.modal.work(), self.modal.offset())
    }

    /// The programmed position along an axis, in millimetres: the machine coordinate without the
    /// shift.
    fn programmed(&self, axis: AxisLetter) -> Var
        ensures { result ≡ in_millimetres (part axis self.now.position -ℤ part axis (shift_now self.now)) }
    {
        programmed(axis, &self.shift_now(), &self.position)
    }

    /// What a common variable of the path's own holds, or that it is shared.
    fn common(&self, v: u32) -> Look
        requires { IsVariable (Variable.Common v) }
        ensures { value_or_shared self.now.fixed self.now (Variable.Common v) ≡ Ok result }
    {
        if self.shares(v) {
            Look::Shared
        } else {
            Look::Is(self.own.get(v))
        }
    }

    /// What a variable holds, or that it is shared, so that each reading of it is an event of its
    /// own.
    ///
    /// Error: `#3000` can't be read.
    fn held(&self, variable: Variable) -> Result<Look, VarFault>
        requires { IsVariable variable }
        ensures { result ≡ value_or_shared self.now.fixed self.now variable }
    {
        let value = match variable {
            Variable::Null => Var::Vacant,
            Variable::Local(i) => self.standing.levels().get(i),
            Variable::Common(v) => return Ok(self.common(v)),
            Variable::Code(group) => code_in_force(self.modal.code(group)),
            Variable::Feed => self.modal.feed(),
            Variable::Speed => self.modal.speed(),
            Variable::Tool => in_units(self.modal.tool()),
            Variable::Programmed(axis) => self.programmed(axis),
            Variable::Machine(axis) => in_millimetres(part(axis, &self.position)),
            Variable::Work(n, axis) => in_millimetres(part(axis, &self.offsets.work(n))),
            Variable::Raise => return Err(VarFault::Range),
        };
        Ok(Look::Is(value))
    }

    /// What the variable of any number holds, or that it is shared; an error if there is none.
    #[inline(never)]
    fn look_at(&self, variable: u32) -> Result<Look, VarFault>
        ensures { result ≡ look_of self.now.fixed self.now variable }
    {
        match variable_in(&self.modal, variable) {
            Some(named) => self.held(named),
            None => Err(VarFault::Range),
        }
    }
}

impl Scope for PathState {
    ghost use Rattle.path_state.specs.Looks.{look_of};

    ghost table = { λ path. look_of path.fixed path };

    /// What the path holds of the variable, as the block before left it. A local variable is told
    /// without a look at the others, since loops count by one.
    #[tactic(auto, using(block_values::proofs::Locals::local_in))]
    fn look(&self, variable: u32) -> Result<Look, VarFault>
        ensures { result ≡ look_of self.now.fixed self.now variable }
    {
        if variable >= 1 && variable <= LOCALS as u32 {
            return Ok(Look::Is(self.standing.levels().get(variable as u8)));
        }
        self.look_at(variable)
    }
}
