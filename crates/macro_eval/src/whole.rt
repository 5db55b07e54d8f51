//! Calculated values of macro expressions as whole numbers and as numbers of variables. stepping.rt
//! calls it for a variable whose number is calculated.
ghost use Rattle.std.specs.Prelude.{◌≡◌, ◌≤◌, unsigned_abs, IfOk};
ghost use Rattle.nc_number.specs.declared.limits.TheConstants.{LARGEST_WHOLE};
ghost use Rattle.macro_eval.specs.Meaning.{whole_number, variable_number};

use nc_number::{Cause, Var};

/// The whole number that a calculated value is; a vacant one counts as 0.
///
/// Error: alarm 4 if the value has a fraction.
pub fn whole_number(computed: &Var) -> Result<i64, Cause>
    ensures value { result ≡ whole_number computed.now }
    ensures range { IfOk result (λ n. unsigned_abs n ≤ LARGEST_WHOLE) }
{
    match computed.or_zero().whole() {
        Some(number) => Ok(number),
        None => Err(Cause::NotWhole),
    }
}

/// The number of the variable that a calculated value names; a vacant one counts as 0.
///
/// Error: alarm 4 if the value has a fraction, and 30 if it is below 0.
pub fn variable_number(computed: &Var) -> Result<u32, Cause>
    ensures { result ≡ variable_number computed.now }
{
    match whole_number(computed) {
        Ok(number) if number < 0 => Err(Cause::VariableRange),
        Ok(number) => Ok(number.unsigned_abs() as u32),
        Err(cause) => Err(cause),
    }
}
