//! The law that a pair without races has one zoning, as the contract of a function that does nothing:
//! who calls it has the law. It is for readers: no other crate calls it.
ghost use Rattle.std.specs.Prelude.{[]};
ghost use Rattle.cell_settings.specs.declared.settings.Settings.{Settings};
ghost use Rattle.tape_flow.specs.declared.flow.Flow.{Flow};
ghost use Rattle.label_list.specs.Accepted.{IsAcceptedPair};
ghost use Rattle.race_report.specs.RaceLists.{shared_by, IsRaceList};
ghost use Rattle.race_zones.specs.OneZoning.{HasOneZoning};

use race_report::a_pair_without_races_has_one_outcome;
use two_path::histories_are_runs;

/// Of an accepted pair whose list of races is empty, all runs that nobody edited and that both paths
/// finished have the same meetings, the same moves of each path between two of them, and so the same
/// zones: what is clear in one of them is clear in all, whichever path had which turn.
pub fn a_pair_without_races_has_one_zoning()
    ensures { (settings : Settings) (left right : Flow) → IsAcceptedPair left.order right.order
        → IsRaceList (shared_by settings) left right [] → HasOneZoning settings left right }
{
    a_pair_without_races_has_one_outcome();
    histories_are_runs();
}
