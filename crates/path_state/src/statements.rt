//! What a statement comes to, decided before anything changes, and the doing of it: an assignment,
//! a jump, the head or the end of a loop. Blocks of words are in acting.rt.
//! For this crate alone: decision.rt and taking.rt call it.
ghost use Rattle.std.specs.Prelude.{◌≡◌, ◌≤◌, ◌++◌, ◌∷◌, ℕ, [], List, length};
ghost use Rattle.nc_number.specs.declared.value.Var.{Var};
ghost use Rattle.common_vars.specs.Variables.{IsVariable};
ghost use Rattle.macro_expr.specs.Tree.{IfGoto, IfThen, WhileDo, variable_of, test_of, aim_of, sentence_of, evaluated_name, evaluated_test, evaluated_aim};
ghost use Rattle.block_order.specs.declared.program.ControlProgram.{ControlProgram};
ghost use Rattle.block_order.specs.Frames.{MayPass};
ghost use Rattle.path_state.specs.View.{PathView};
ghost use Rattle.path_state.specs.Looks.{is_shared};
ghost use Rattle.block_values.specs.Seen.{outcome_of};
ghost use Rattle.block_order.specs.Moves.{place_to};
ghost use Rattle.block_values.specs.Operands.{length_of};
ghost use Rattle.path_state.specs.Statements.{variable_named, with_common, outcome_of_write, assigned_next, outcome_of_aim, move_effect, jump_effect, statement_effect};
ghost use Rattle.path_state.specs.Effect.{of_after};
ghost use Rattle.path_state.specs.StatementSteps.{after_writing, after_step, step_seen, write_seen, taken_next};

use crate::path::PathState;
use crate::writing::{Change, StatementStep, Writing};
use block_forms::FlowStatement;
use block_order::BlockOrder;
use block_values::{Stop, condition_taken, length_of, sequence_taken, value_taken, variable_taken};
use common_vars::{AxisLetter, Variable};
use macro_eval::Code;
use macro_expr::{Cond, Statement, Target, VarRef};
use nc_number::{Axis, Cause, Var};
use offset_store::{Slot, WorkNumber};

/// A step to a block of the running program, or the alarm of the cause for which there is none.
fn step_to(block: Result<u32, Cause>) -> Result<StatementStep, Stop>
    ensures { (path : PathView) (left : List Var)
        → step_seen path result ≡ of_after (move_effect path (place_to path.place block) left) }
{
    match block {
        Ok(block) => Ok(StatementStep::To(block)),
        Err(cause) => Err(Stop::of(cause)),
    }
}

/// The codes of a statement but the last one, and the last one, which is that of a value.
fn parted(codes: &[Code]) -> (&[Code], &Code)
    requires { 1 ≤ length codes.now }
    ensures { codes.now ≡ result.0.now ++ result.1.now ∷ [] }
{
    let (front, last) = codes.split_at(codes.len() - 1);
    (front, &last[0])
}

impl PathState {
    /// The writing by which a common variable takes a value: the path's own, or a shared one.
    fn common_written(&self, v: u32, value: &Var) -> Writing
        requires { IsVariable (Variable.Common v) }
        ensures { after_writing self.now result ≡ with_common (is_shared self.now.fixed v) self.now v value.now }
    {
        if self.shares(v) {
            Writing {
                change: Change::Shared(v, *value),
            }
        } else {
            Writing {
                change: Change::Own(v, *value),
            }
        }
    }

    /// The writing by which a work offset takes a value along an axis; alarm 41 past the range.
    fn offset_written(&self, n: u8, axis: AxisLetter, value: &Var) -> Result<Writing, Stop>
        requires { IsVariable (Variable.Work n axis) }
        ensures { (left : List Var) → outcome_of (after_writing self.now) result left
            ≡ outcome_of_write self.now.fixed self.now (Variable.Work n axis) value.now left }
    {
        let slot = Slot::Work(WorkNumber::new(n));
        let told = Axis::To(length_of(value));
        let changed = match axis {
            AxisLetter::X => self.offsets.changed(&slot, told, Axis::Keep),
            AxisLetter::Z => self.offsets.changed(&slot, Axis::Keep, told),
        };
        match changed {
            Ok(to) => Ok(Writing {
                change: Change::Work(n, to),
            }),
            Err(fault) => Err(Stop::fault(fault.number)),
        }
    }

    /// The writing by which a variable takes a value; alarm 31 of one that is read only, 33 with
    /// the value of `#3000`, 41 of an offset past the range.
    fn written(&self, variable: Variable, value: Var) -> Result<Writing, Stop>
        requires { IsVariable variable }
        ensures { (left : List Var) → outcome_of (after_writing self.now) result left
            ≡ outcome_of_write self.now.fixed self.now variable value left }
    {
        match variable {
            Variable::Local(i) => Ok(Writing {
                change: Change::Local(i, value),
            }),
            Variable::Common(v) => Ok(self.common_written(v, &value)),
            Variable::Work(n, axis) => self.offset_written(n, axis, &value),
            Variable::Raise => Err(Stop::Alarms {
                number: Cause::MacroAlarm.number(),
                value: value.or_zero(),
            }),
            _ => Err(Stop::of(Cause::Protected)),
        }
    }

    /// What an assignment comes to whose variable is known: it takes the value of the expression.
    fn takes(&self, variable: Variable, value: &Code, reads: &[Var]) -> Result<StatementStep, Stop>
        requires { IsVariable variable }
        ensures { step_seen self.now result
            ≡ of_after (taken_next self.now.fixed self.now variable value.now reads.now) }
    {
        let (answer, _) = value_taken(value, self, reads);
        match answer {
            Ok(value) => match self.written(variable, value) {
                Ok(writing) => Ok(StatementStep::Write(writing)),
                Err(stop) => Err(stop),
            },
            Err(stop) => Err(stop),
        }
    }

    /// What an assignment comes to: the number on the left is evaluated, then the value, and then
    /// follows the writing.
    fn assigned(
        &self,
        name: &VarRef,
        number: &[Code],
        value: &Code,
        reads: &[Var],
    ) -> Result<StatementStep, Stop>
        requires { number.now ≡ evaluated_name (variable_of name.now) }
        ensures { step_seen self.now result
            ≡ of_after (assigned_next self.now.fixed self.now (variable_of name.now) value.now reads.now) }
    {
        let (named, behind_name) = variable_taken(&self.modal, name, number, self, reads);
        match named {
            Ok(variable) => self.takes(variable, value, behind_name),
            Err(stop) => Err(stop),
        }
    }

    /// What a jump comes to: the block to which its target leads.
    fn jump(
        &self,
        order: &BlockOrder,
        target: &Target,
        number: &[Code],
        reads: &[Var],
    ) -> Result<StatementStep, Stop>
        requires { number.now ≡ evaluated_aim (aim_of target.now) }
        ensures { step_seen self.now result
            ≡ of_after (jump_effect order.now self.now.fixed self.now (aim_of target.now) reads.now) }
    {
        let (aimed, _) = sequence_taken(target, number, self, reads);
        match aimed {
            Ok(number) => step_to(self.place().jump(order, number)),
            Err(stop) => Err(stop),
        }
    }

    /// What a jump behind IF comes to, whose target is evaluated only if the condition holds.
    fn jump_if(
        &self,
        order: &BlockOrder,
        condition: &Cond,
        target: &Target,
        codes: &[Code],
        reads: &[Var],
    ) -> Result<StatementStep, Stop>
        requires { codes.now ≡ evaluated_test (test_of condition.now) ++ evaluated_aim (aim_of target.now) }
        ensures { step_seen self.now result ≡ of_after (statement_effect order.now self.now.fixed self.now
            (IfGoto (test_of condition.now) (aim_of target.now)) reads.now) }
    {
        let (test, number) = codes.split_at(2);
        let (answer, left) = condition_taken(condition, test, self, reads);
        match answer {
            Ok(true) => self.jump(order, target, number, left),
            Ok(false) => Ok(StatementStep::Next),
            Err(stop) => Err(stop),
        }
    }

    /// What an assignment behind IF comes to, of which nothing is evaluated if the condition fails.
    fn assigned_if(
        &self,
        condition: &Cond,
        name: &VarRef,
        codes: &[Code],
        value: &Code,
        reads: &[Var],
    ) -> Result<StatementStep, Stop>
        requires { codes.now ≡ evaluated_test (test_of condition.now) ++ evaluated_name (variable_of name.now) }
        ensures { (tape : List ControlProgram) → step_seen self.now result
            ≡ of_after (statement_effect tape self.now.fixed self.now
            (IfThen (test_of condition.now) (variable_of name.now) value.now) reads.now) }
    {
        let (test, behind_test) = codes.split_at(2);
        let (answer, left) = condition_taken(condition, test, self, reads);
        match answer {
            Ok(true) => self.assigned(name, behind_test, value, left),
            Ok(false) => Ok(StatementStep::Next),
            Err(stop) => Err(stop),
        }
    }

    /// What the head of a loop comes to: if its condition fails, the loop is left.
    fn looped(
        &self,
        order: &BlockOrder,
        condition: &Cond,
        codes: &[Code],
        reads: &[Var],
    ) -> Result<StatementStep, Stop>
        requires { codes.now ≡ evaluated_test (test_of condition.now) }
        ensures { (name : ℕ) → step_seen self.now result ≡ of_after (statement_effect order.now self.now.fixed self.now
            (WhileDo (test_of condition.now) name) reads.now) }
    {
        let (answer, _) = condition_taken(condition, codes, self, reads);
        match answer {
            Ok(true) => Ok(StatementStep::Next),
            Ok(false) => step_to(self.place().loop_exit(order)),
            Err(stop) => Err(stop),
        }
    }

    /// What the statement comes to, with these values read so far. The path does not change.
    ///
    /// It needs the shared variable that must be read next. Alarms: those of [`evaluate`], 30 of a
    /// variable that does not exist, 31 of one that is read only, 33 with the value of `#3000`, 41
    /// of an offset past the range, and 50 and 53 of a computed jump.
    pub(crate) fn statement_step(
        &self,
        order: &BlockOrder,
        statement: &FlowStatement,
        reads: &[Var],
    ) -> Result<StatementStep, Stop>
        ensures { step_seen self.now result ≡ of_after
            (statement_effect order.now self.now.fixed self.now (sentence_of statement.now.statement) reads.now) }
    {
        let codes = statement.codes.codes();
        match &statement.statement {
            Statement::Assign(name, _) => {
                let (number, value) = parted(codes);
                self.assigned(name, number, value, reads)
            }
            Statement::Goto(target) => self.jump(order, target, codes, reads),
            Statement::IfGoto(condition, target) => self.jump_if(
                order, condition, target, codes, reads,
            ),
            Statement::IfThen(condition, name, _) => {
                let (before, value) = parted(codes);
                self.assigned_if(condition, name, before, value, reads)
            }
            Statement::WhileDo(condition, _) => self.looped(order, condition, codes, reads),
            Statement::DoOnly(_) => Ok(StatementStep::Next),
            Statement::EndLoop(_) => step_to(self.place().loop_head(order)),
        }
    }

    /// Does what the statement comes to, and answers what it writes to a shared variable.
    pub(crate) fn take_statement(&mut self, step: StatementStep) -> Option<(u32, Var)>
        requires { MayPass self.old.place }
        ensures path { self.new ≡ (after_step self.old step).path }
        ensures write { write_seen result ≡ (after_step self.old step).write }
    {
        match step {
            StatementStep::Write(writing) => {
                let shared = self.change(&writing);
                self.standing.pass();
                shared
            }
            StatementStep::Next => {
                self.standing.pass();
                None
            }
            StatementStep::To(block) => {
                self.standing.to(block);
                None
            }
        }
    }

    /// Makes the change, and answers what it writes to a shared variable.
    fn change(&mut self, writing: &Writing) -> Option<(u32, Var)>
        ensures path { self.new ≡ (after_writing self.old writing.now).path }
        ensures write { write_seen result ≡ (after_writing self.old writing.now).write }
    {
        match writing.change {
            Change::Local(i, value) => self.standing.set_local(i, value),
            Change::Own(v, value) => self.own.set(v, value),
            Change::Shared(v, value) => return Some((v, value)),
            Change::Work(n, to) => self.offsets.put(&Slot::Work(WorkNumber::new(n)), to),
        }
        None
    }
}
