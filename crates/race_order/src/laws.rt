//! The laws that a pair without a race comes to one outcome, whichever path has which turn, and that
//! its runs go alike from meeting to meeting. No crate calls the functions.
ghost use Rattle.block_order.specs.Labels.{IsUnforked};
ghost use Rattle.tape_flow.specs.declared.flow.Flow.{Flow};
ghost use Rattle.race_order.specs.Agreement.{RaceFreeRunsAgree, RaceFreeRunsGoAlike};

/// Over two flows of which each comes to one list of labels, whatever the variables hold: if no
/// part of one path may write a shared variable that the same part of the other names, all runs of
/// turns that finish come to the same machine, but for the order of records and their numbers, and
/// to the same moves of each path.
pub fn race_free_runs_agree()
    ensures { (left right : Flow) → IsUnforked left.order → IsUnforked right.order → RaceFreeRunsAgree left right }
{}

/// Over the same two flows all runs of turns go alike from meeting to meeting, those too that are
/// stopped, end by an alarm or could go on for ever: what a path does in one run, its moves and its
/// meetings in their order, is how it begins in the other.
pub fn race_free_runs_go_alike()
    ensures { (left right : Flow) → IsUnforked left.order → IsUnforked right.order → RaceFreeRunsGoAlike left right }
{}
