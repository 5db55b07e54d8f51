//! What holds of every machine: its records are a legal history, a restart goes on with one history,
//! and over an accepted pair the paths never get stuck. Each law is the contract of a function that
//! does nothing: who calls it has the law.
ghost use Rattle.std.specs.Prelude.{List};
ghost use Rattle.block_order.specs.declared.program.ControlProgram.{ControlProgram};
ghost use Rattle.tape_flow.specs.declared.flow.Flow.{Flow};
ghost use Rattle.path_state.specs.View.{PathView};
ghost use Rattle.two_path.specs.Machine.{opening};
ghost use Rattle.two_path.specs.Turns.{Tapes, blocks_of};
ghost use Rattle.two_path.specs.Joined.{AreAtTheirWaits};
ghost use Rattle.two_path.specs.Histories.{HistoriesAreRuns, Keeps, IsKeptOverRestarts};
ghost use Rattle.two_path.specs.Stuck.{RaisesNoCrossing, IsPair, IsNeverStuck, IsNeverStuckBehindRecords};

use block_order::each_step_keeps_the_labels;

/// No path of a machine that has not begun waits.
#[tactic(auto, using(crate::proofs::Replays::none_waits))]
pub fn a_machine_begins_without_waits()
    ensures { (left right : List ControlProgram) (first second : PathView)
        → AreAtTheirWaits left right (opening first second) }
{}

/// The records of any events are a legal history, and each legal history is the records of some
/// events.
pub fn histories_are_runs()
    ensures { (tapes : Tapes) (first second : PathView) → HistoriesAreRuns tapes (opening first second) }
{}

/// A machine that is the fold of a legal history, with lawful block reads, stays so, with each
/// event more and with each record that is done again.
pub fn each_event_keeps_the_history()
    ensures { (tapes : Tapes) (first second : PathView) → Keeps tapes (opening first second) }
{}

/// Over any events and restarts the records are one legal history, and the machine is its fold but
/// for lawful reads.
pub fn restarts_keep_the_history()
    ensures { (tapes : Tapes) (first second : PathView) → IsKeptOverRestarts tapes (opening first second) }
{}

/// No block raises the alarm of two paths that wait at different codes.
pub fn no_block_says_that_waits_differ()
    ensures { (flow : Flow) → RaisesNoCrossing (blocks_of flow) }
{}

/// Over a pair whose lists of labels are equal, no order of events leads to paths that can't go on,
/// no wait meets another, and no alarm says that waits differ.
pub fn no_pair_is_stuck()
    ensures { (left right : Flow) → IsPair left right → IsNeverStuck left right }
{
    each_step_keeps_the_labels();
    no_block_says_that_waits_differ();
}

/// Over a pair whose lists of labels are equal, no legal history leads to paths that can't go on,
/// whoever made it and wherever it was cut off.
pub fn no_legal_history_is_stuck()
    ensures { (left right : Flow) → IsPair left right → IsNeverStuckBehindRecords left right }
{
    no_pair_is_stuck();
}
