//! What the number of a variable names, for all numbers after `#`: one table.
ghost use Rattle.std.specs.Prelude.{◌≡◌, ◌≢◌, ◌↔◌, ◌+◌, ◌≤◌, ℕ, Some, IsNone, IfSome};
ghost use Rattle.common_vars.specs.declared.variable.Variable.{Variable};
ghost use Rattle.common_vars.specs.Variables.{IsVariable, IsWorkOffset, number_of, variable_of, is_protected, is_readable};

/// The letter of an axis.
#[derive(Clone, Copy, Debug, PartialEq, Eq)]
pub enum AxisLetter {
    X,
    Z,
}

/// What the number after a `#` names.
#[derive(Clone, Copy, Debug, PartialEq, Eq)]
pub enum Variable {
    /// `#0`, which is always vacant.
    Null,
    /// `#1` to `#33`: a local variable of the running level.
    Local(u8),
    /// `#100` to `#199` and `#500` to `#999`: a common variable, by its number.
    Common(u32),
    /// `#4001`, `#4002`, `#4003`, `#4005`, `#4006`, `#4007` and `#4014`: the code in force of that
    /// modal group, if the control's system has the group.
    Code(u8),
    /// `#4109`: F.
    Feed,
    /// `#4119`: S.
    Speed,
    /// `#4120`: T.
    Tool,
    /// `#5001` and `#5002`: the programmed position.
    Programmed(AxisLetter),
    /// `#5021` and `#5022`: the machine's position.
    Machine(AxisLetter),
    /// `#5201` and `#5202`: the external work offset, number 0; from there on in steps of 20 those
    /// of G54 to G59, numbers 1 to 6.
    Work(u8, AxisLetter),
    /// `#3000`: writing it raises an alarm of the program.
    Raise,
}

impl Variable {
    /// Whether the variable can't be written: writing one that is read only is the alarm
    /// [`Protected`](nc_number::Cause::Protected).
    pub fn is_protected(self) -> bool
        ensures { result ≡ is_protected self }
    {
        match self {
            Variable::Null
            | Variable::Code(_)
            | Variable::Feed
            | Variable::Speed
            | Variable::Tool
            | Variable::Programmed(_)
            | Variable::Machine(_) => true,
            Variable::Local(_) | Variable::Common(_) | Variable::Work(_, _) | Variable::Raise =>
                false,
        }
    }

    /// Whether the variable can be read: reading `#3000` is the alarm
    /// [`VariableRange`](nc_number::Cause::VariableRange).
    pub fn is_readable(self) -> bool
        ensures { result ≡ is_readable self }
    {
        !matches!(self, Variable::Raise)
    }
}

/// What `#number` names. A number that names nothing is the alarm
/// [`VariableRange`](nc_number::Cause::VariableRange).
pub fn variable_of(number: u32) -> Option<Variable>
    ensures { result ≡ variable_of number }
{
    named_by(number)
}

/// The variable of this number, by one table, if there is one.
fn named_by(number: u32) -> Option<Variable>
    ensures named { IfSome result (λ variable. IsVariable variable) }
    ensures number { IfSome result (λ variable. number_of variable ≡ number) }
    ensures none { IsNone result → (variable : Variable) → IsVariable variable → number_of variable ≢ number }
{
    use AxisLetter::{X, Z};
    Some(match number {
        0 => Variable::Null,
        1..=33 => Variable::Local(number as u8),
        100..=199 | 500..=999 => Variable::Common(number),
        3000 => Variable::Raise,
        4001 | 4002 | 4003 | 4005 | 4006 | 4007 | 4014 => Variable::Code((number - 4000) as u8),
        4109 => Variable::Feed,
        4119 => Variable::Speed,
        4120 => Variable::Tool,
        5001 => Variable::Programmed(X),
        5002 => Variable::Programmed(Z),
        5021 => Variable::Machine(X),
        5022 => Variable::Machine(Z),
        5201..=5322 => return work_offset((number - 5201) as u8),
        _ => return None,
    })
}

/// The work offset whose variable is so many numbers after that of the external offset's X (#5201),
/// if there is one.
/// Each offset has 20 numbers, of which the first two are X and Z.
fn work_offset(behind: u8) -> Option<Variable>
    requires { behind ≤ 121 }
    ensures named { IfSome result IsWorkOffset }
    ensures number { IfSome result (λ variable. number_of variable ≡ 5201 + behind) }
    ensures none { IsNone result → (variable : Variable) → IsWorkOffset variable → number_of variable ≢ 5201 + behind }
{
    match behind % 20 {
        0 => Some(Variable::Work(behind / 20, AxisLetter::X)),
        1 => Some(Variable::Work(behind / 20, AxisLetter::Z)),
        _ => None,
    }
}

/// Each variable has one number, and each number names at most one variable.
pub fn a_variable_has_one_number()
    ensures { (number : ℕ) (variable : Variable)
        → (variable_of number ≡ Some variable) ↔ (IsVariable variable × (number_of variable ≡ number)) }
{}
