//! The parts of a step: whether a turn shows something, its record, and the flush before its
//! answer. When the path is drained instead is in draining.rt.
//! For this crate alone: table.rt uses it.
ghost use Rattle.std.specs.Prelude.{◌≡◌, ◌+◌, ◌<◌, [], true, length, nat_lt, None, IsTrue, IfSome};
ghost use Rattle.run_records.specs.Entries.{edit_of};
ghost use Rattle.two_path.specs.Histories.{list_of};
ghost use Rattle.two_path.specs.Made.{moves_of_turn, turn_with};
ghost use Rattle.run_table.specs.Apart.{moves_of_step, step_with};
ghost use Rattle.run_table.specs.declared.answer.TableStep.TheVariants.{Turned as Shown};
ghost use Rattle.run_table.specs.Recording.{MayNote, IsNoted, Records};
ghost use Rattle.run_table.specs.Stepping.{is_shown, is_waiting, is_due, Answers, reason_of};

use crate::answer::StepAnswer;
use crate::recording::Recording;
use disk_model::Disk;
use nc_moves::MoveList;
use nc_number::{MOST_PENDING, Path};
use nc_outside::Halt;
use run_records::Entry;
use two_path::{Answered, Machine, TurnAnswer};

/// Whether a turn with these moves shows something to the outside. A block without moves shows
/// nothing.
pub(crate) fn is_shown(answer: &TurnAnswer, moves: &MoveList) -> bool
    ensures { result ≡ is_shown (turn_with answer.now moves.now) }
{
    match answer {
        TurnAnswer::Did { .. } => !moves.as_slice().is_empty(),
        TurnAnswer::Arrived { .. } | TurnAnswer::Met { .. } => true,
        TurnAnswer::Ended { .. } | TurnAnswer::Alarm { .. } => true,
        TurnAnswer::Read { .. } | TurnAnswer::Waiting { .. } | TurnAnswer::Finished => false,
        TurnAnswer::Halted { .. } | TurnAnswer::Edited => false,
    }
}

/// Whether the path is at a wait, and no alarm came.
pub(crate) fn is_waiting(machine: &Machine, path: Path) -> bool
    ensures { result ≡ is_waiting path machine.now.machine }
{
    machine.alarm().is_none() && !machine.finished(path) && machine.waiting(path).is_some()
}

/// The reason to stop that a table keeps after this answer: an alarm or a fault of the disk. Any
/// other answer leaves none.
pub(crate) fn reason_of(answer: &StepAnswer, moves: &MoveList) -> Option<Halt>
    ensures { result ≡ reason_of (step_with answer.now moves.now) }
{
    let _ = moves;
    match answer {
        StepAnswer::Turned(TurnAnswer::Alarm { alarm }) => Some(Halt::Alarm(*alarm)),
        StepAnswer::Turned(_) | StepAnswer::Drain(_) => None,
        StepAnswer::Undrained | StepAnswer::Halted(_) => None,
        StepAnswer::DiskFault => Some(Halt::Disk),
    }
}

/// Notes the record of a turn, if it has one, and takes it off the budget.
pub(crate) fn note<D: Disk>(recording: &mut Recording<D>, budget: &mut u32, entry: Option<Entry>)
    requires note { MayNote recording.old }
    requires step { IfSome entry (λ e. edit_of e.kind ≡ None) }
    requires budget { 0 < budget.old }
    ensures noted { IsNoted D.state (list_of entry) recording.old recording.new }
    ensures budget { budget.new + length (list_of entry) ≡ budget.old }
{
    if let Some(entry) = entry {
        recording.note(entry);
        *budget -= 1;
    }
}

/// Writes all records that pend, before this answer is given. If the disk fails in that, the answer
/// is `DiskFault` instead, and the list of moves is cleared.
pub(crate) fn flush_before<D: Disk>(
    recording: &mut Recording<D>,
    answer: StepAnswer,
    moves: &mut MoveList,
) -> StepAnswer
    requires live { IsTrue recording.old.log.file.live }
    requires apart { moves_of_step (step_with answer moves.old) ≡ moves.old }
    ensures answer { Answers D.state (nat_lt recording.old.flushed (length recording.old.history))
        (step_with answer moves.old) recording.old recording.new (step_with result moves.new) }
    ensures apart { moves_of_step (step_with result moves.new) ≡ moves.new }
    ensures records { Records D.state [] recording.old recording.new }
{
    match recording.flush() {
        Ok(()) => answer,
        Err(_) => {
            moves.clear();
            StepAnswer::DiskFault
        }
    }
}

/// Takes a turn of the machine, whose moves are these: its record joins the history, and all
/// records are written before an answer that shows something, and at 64 that pend. If the disk
/// fails in that, the answer is `DiskFault` and the list of moves is cleared.
pub(crate) fn take<D: Disk>(
    recording: &mut Recording<D>,
    budget: &mut u32,
    turned: Answered,
    moves: &mut MoveList,
) -> StepAnswer
    requires note { MayNote recording.old }
    requires step { IfSome turned.entry (λ e. edit_of e.kind ≡ None) }
    requires budget { 0 < budget.old }
    requires made { is_shown (turn_with turned.answer moves.old) ≡ true → length (list_of turned.entry) ≡ 1 }
    requires apart { moves_of_turn (turn_with turned.answer moves.old) ≡ moves.old }
    ensures answer { Answers D.state (is_due recording.old (list_of turned.entry) (turn_with turned.answer moves.old))
        (Shown (turn_with turned.answer moves.old)) recording.old recording.new (step_with result moves.new) }
    ensures apart { moves_of_step (step_with result moves.new) ≡ moves.new }
    ensures records { Records D.state (list_of turned.entry) recording.old recording.new }
    ensures budget { budget.new + length (list_of turned.entry) ≡ budget.old }
{
    let Answered { answer, entry } = turned;
    note(recording, budget, entry);
    if is_shown(&answer, moves) || recording.pending() == MOST_PENDING {
        return flush_before(recording, StepAnswer::Turned(answer), moves);
    }
    StepAnswer::Turned(answer)
}
