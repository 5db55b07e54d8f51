//! What a list of races says: a pair has one at most, and an empty one of an accepted pair means
//! one outcome, and that all runs go alike from meeting to meeting. Each law is the contract of a function that does nothing.
//! They are for readers: no other crate calls them.
ghost use Rattle.std.specs.Prelude.{◌≡◌, ℕ, Bool, [], List};
ghost use Rattle.cell_settings.specs.declared.settings.Settings.{Settings};
ghost use Rattle.tape_flow.specs.declared.flow.Flow.{Flow};
ghost use Rattle.label_list.specs.Accepted.{IsAcceptedPair};
ghost use Rattle.race_report.specs.declared.race.Race.{Race};
ghost use Rattle.race_report.specs.RaceLists.{shared_by, IsRaceList};
ghost use Rattle.race_report.specs.Outcomes.{HasOneOutcome, AllGoAlike};

/// An accepted pair whose list of races is empty comes to one outcome, whichever path has which
/// turn.
pub fn a_pair_without_races_has_one_outcome()
    ensures { (settings : Settings) (left right : Flow) → IsAcceptedPair left.order right.order
        → IsRaceList (shared_by settings) left right [] → HasOneOutcome settings left right }
{}

/// The runs of an accepted pair whose list of races is empty go alike, those too that stop, end by an
/// alarm or could go on for ever: what a path does in one, its moves and its meetings in their order,
/// is how it begins in any other. So between two meetings it makes the same moves in each run that
/// comes to the second.
pub fn the_runs_of_a_pair_without_races_go_alike()
    ensures { (settings : Settings) (left right : Flow) → IsAcceptedPair left.order right.order
        → IsRaceList (shared_by settings) left right [] → AllGoAlike settings left right }
{}

/// A pair has one list of races at most.
pub fn a_pair_has_one_list_of_races()
    ensures { (shared : ℕ → Bool) (left right : Flow) (one two : List Race) → IsRaceList shared left right one
        → IsRaceList shared left right two → one ≡ two }
{}
