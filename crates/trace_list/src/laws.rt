//! What holds of every trace. Each law is the contract of a function that does nothing; a caller
//! may use what it ensures.
//! No crate calls them: they say to a reader that a trace agrees with the report, the waits and the
//! labels.
ghost use Rattle.std.specs.Prelude.{◌≡◌, ℕ, List, None};
ghost use Rattle.block_order.specs.Labels.{list};
ghost use Rattle.nc_number.specs.declared.path.Path.TheVariants.{One, Two};
ghost use Rattle.tape_flow.specs.declared.flow.Flow.{Flow};
ghost use Rattle.two_path.specs.Stuck.{AreAtStart, IsPair};
ghost use Rattle.nc_number.specs.declared.path.Path.{Path};
ghost use Rattle.run_records.specs.Entries.{Entry};
ghost use Rattle.path_state.specs.View.{PathView};
ghost use Rattle.two_path.specs.Histories.{IsLegal};
ghost use Rattle.two_path.specs.Machine.{MachineView, opening};
ghost use Rattle.two_path.specs.Turns.{Tapes, tapes_of};
ghost use Rattle.two_path.specs.Made.{moves_of};
ghost use Rattle.trace_list.specs.Laws.{moves_traced};
ghost use Rattle.trace_list.specs.Meetings.{ArePaired};
ghost use Rattle.trace_list.specs.Stops.{Follows, stops_of};
ghost use Rattle.trace_list.specs.Trace.{traced_lines};

use block_order::each_step_keeps_the_labels;

/// The moves of a path in the trace of a history are those of the history's report, in the same
/// order and with the same lines.
pub fn a_trace_has_the_moves_of_the_report()
    ensures { (tapes : Tapes) (met : ℕ) (m : MachineView) (path : Path) (entries : List Entry)
        → moves_traced path (traced_lines tapes met m entries) ≡ moves_of tapes m path entries }
{}

/// Each meeting in the trace of a legal history is of the open waits of both paths: it has their
/// code and their lines, and the meetings are numbered from 1. A path that waits has no line before
/// it meets the other one.
pub fn meetings_are_numbered_and_paired()
    ensures { (tapes : Tapes) (first second : PathView) (entries : List Entry)
        → IsLegal tapes (opening first second) entries
        → ArePaired None None 0 (traced_lines tapes 0 (opening first second) entries) }
{}

/// The waits and the end of a path in the trace of a legal history of an accepted pair are labels
/// of its tape, in the order of its list of labels, from the first one on. M99 of the main program
/// begins the list anew.
pub fn the_waits_of_a_trace_are_the_labels()
    ensures { (left right : Flow) → IsPair left right → (first second : PathView)
        → AreAtStart left.order right.order first second
        → (entries : List Entry) → IsLegal (tapes_of left right) (opening first second) entries
        → Follows (list left.order) (list left.order)
        (stops_of One (traced_lines (tapes_of left right) 0 (opening first second) entries))
        × Follows (list right.order) (list right.order)
        (stops_of Two (traced_lines (tapes_of left right) 0 (opening first second) entries)) }
{
    each_step_keeps_the_labels();
}
