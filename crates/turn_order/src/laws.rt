//! What holds of every run whose paths take turns. Each law is the contract of a function that does
//! nothing: who calls it has the law. turns.rt takes the first; the second is for readers.
ghost use Rattle.std.specs.Prelude.{◌≡◌, ℕ, List};
ghost use Rattle.nc_verify.specs.declared.verified.Verified.{Verified};
ghost use Rattle.path_state.specs.View.{PathView};
ghost use Rattle.run_records.specs.Entries.{Entry};
ghost use Rattle.two_path.specs.Machine.{MachineView, opening, without_reads};
ghost use Rattle.two_path.specs.Histories.{IsKept, IsLegal};
ghost use Rattle.two_path.specs.Stuck.{IsStuck};
ghost use Rattle.two_path.specs.Turns.{Tapes};
ghost use Rattle.turn_order.specs.InTurn.{IsInTurn, start_of, tapes_in};

use path_state::control_goes_as_the_flow_orders;
use two_path::{histories_are_runs, no_legal_history_is_stuck};

/// A machine that is the fold of a legal history of an accepted pair can go on.
pub(crate) fn kept_runs_are_not_stuck()
    ensures { (verified : Verified) (entries : List Entry) (machine : MachineView)
        → IsKept (tapes_in verified) (start_of verified) entries machine → IsStuck (without_reads machine) → ⊥ }
{
    control_goes_as_the_flow_orders();
    no_legal_history_is_stuck();
}

/// The records of a run whose paths take turns are a legal history.
pub fn runs_in_turn_are_legal()
    ensures { (tapes : Tapes) (first second : PathView) (limit : ℕ) (entries : List Entry)
        → IsInTurn tapes (opening first second) limit entries → IsLegal tapes (opening first second) entries }
{
    histories_are_runs();
}

/// Two tapes, the settings and a number of records have one run whose paths take turns: two lists
/// that are the records of such a run are equal.
pub fn one_run_in_turn()
    ensures { (tapes : Tapes) (first second : PathView) (limit : ℕ) (one two : List Entry)
        → IsInTurn tapes (opening first second) limit one
        → IsInTurn tapes (opening first second) limit two → one ≡ two }
{
    histories_are_runs();
}
