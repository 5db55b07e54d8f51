//! What holds of every table. A function here does nothing; who calls it may use what it ensures.
ghost use Rattle.std.specs.Prelude.{◌≡◌, ◌≢◌, ℕ, ◌-◌, ◌*◌, ◌≤◌, List, length, Some};
ghost use Rattle.nc_number.specs.declared.path.Path.{Path};
ghost use Rattle.nc_number.specs.Path.{other_of};
ghost use Rattle.nc_verify.specs.declared.verified.Verified.{Verified};
ghost use Rattle.run_records.specs.Entries.{Entry};
ghost use Rattle.two_path.specs.declared.turn.Turn.TheVariants.{Waiting};
ghost use Rattle.two_path.specs.Machine.{MachineView, without_reads};
ghost use Rattle.two_path.specs.Stuck.{IsStuck};
ghost use Rattle.two_path.specs.Turns.{turn_of};
ghost use Rattle.two_path.specs.Histories.{IsKept};
ghost use Rattle.nc_outside.specs.declared.halt.Halt.TheVariants as halt;
ghost use Rattle.nc_outside.specs.declared.reason.Reason.{Reason};
ghost use Rattle.run_table.specs.Ending.{HasEnded};
ghost use Rattle.run_table.specs.Holding.{HeldView, MayHold, IsTaken};
ghost use Rattle.run_table.specs.Kept.{TableView, tapes_in, opening_of};
ghost use Rattle.run_table.specs.Made.{moves_made, told_made};
ghost use Rattle.run_table.specs.Running.{EndsBy};
ghost use Rattle.run_table.specs.Since.{Since};
ghost use Rattle.run_table.specs.Stepping.{GoesOn};

use disk_model::Disk;
use path_state::control_goes_as_the_flow_orders;
use two_path::no_legal_history_is_stuck;

/// A machine that is the fold of a legal history is not stuck: unless there is an alarm or both
/// paths have ended, one of them neither waits nor has ended.
fn kept_paths_are_not_stuck()
    ensures { (verified : Verified) (entries : List Entry) (machine : MachineView)
        → IsKept (tapes_in verified) (opening_of verified) entries machine → IsStuck (without_reads machine) → ⊥ }
{
    control_goes_as_the_flow_orders();
    no_legal_history_is_stuck();
}

/// While a path waits, the other one's turn is that of a block: it neither waits nor has ended.
pub fn who_is_waited_for_goes_on()
    ensures { (verified : Verified) (entries : List Entry) (machine : MachineView) (path : Path) (code : ℕ)
        → IsKept (tapes_in verified) (opening_of verified) entries machine
        → (turn_of (tapes_in verified) path machine).turn ≡ Waiting code
        → GoesOn (tapes_in verified) (other_of path) machine }
{
    kept_paths_are_not_stuck();
}

/// The records of a path make seven moves each at most, and tell its turret seven things at most.
pub fn a_record_makes_seven_moves_at_most()
    ensures moves { (pair : Verified) (path : Path) (from upto : ℕ) (history : List Entry)
        → length (moves_made pair path from upto history) ≤ 7 * (upto - from) }
    ensures tells { (pair : Verified) (path : Path) (from upto : ℕ) (history : List Entry)
        → length (told_made pair path from upto history) ≤ 7 * (upto - from) }
{}

/// Each table may be held with itself as the opening.
pub fn a_table_opens_itself<D: Disk>()
    ensures { (t : TableView D) → MayHold D.state (Some t) t }
{}

/// What ended the run of a held table also ended that of the table that is taken out, as a run that
/// began at `start`.
pub fn a_taken_table_ended_so<D: Disk>()
    ensures { (start taken : TableView D) (held : HeldView D) (end : Reason) → Since D.state start taken
        → start.halt ≢ Some halt.Disk → IsTaken held taken → HasEnded held end → EndsBy D.state start taken end }
{}
