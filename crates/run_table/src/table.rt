//! The table of a run. The pair, the machine, the history with its journal, and why it stopped. A
//! step's parts are in stepping.rt. held.rt holds it.
ghost use Rattle.std.specs.Prelude.{◌≡◌, ◌≢◌, ℕ, ◌+◌, ◌≤◌, false, length, IfOk, IsTrue, Some};
ghost use Rattle.gate_file.specs.Creation.{without_disk};
ghost use Rattle.nc_number.specs.declared.limits.TheConstants.{MOST_PENDING};
ghost use Rattle.nc_number.specs.declared.path.Path.{Path};
ghost use Rattle.nc_number.specs.Path.{other_of};
ghost use Rattle.nc_number.specs.Both.{of_path};
ghost use Rattle.nc_outside.specs.declared.halt.Halt.TheVariants as halt;
ghost use Rattle.run_records.specs.declared.header.Header.{Header};
ghost use Rattle.run_records.specs.Headers.{IsShort};
ghost use Rattle.run_journal.specs.Beginning.{BeginsRun};
ghost use Rattle.seat_table.specs.Turning.{first_reason};
ghost use Rattle.two_path.specs.declared.turn.Turn.TheVariants as turn;
ghost use Rattle.two_path.specs.Histories.{IsKept};
ghost use Rattle.two_path.specs.Turns.{turn_of};
ghost use Rattle.run_table.specs.declared.answer.TableStep.TheVariants as step;
ghost use Rattle.run_table.specs.Apart.{moves_of_step, step_with};
ghost use Rattle.run_table.specs.Recording.{IsJournaled};
ghost use Rattle.run_table.specs.Kept.{tapes_in, opening_of, IsVerdictOf, IsTable};
ghost use Rattle.run_table.specs.Stepping.{bound_of, waits_in, drains, step_of, IsStep, GoesOn};
ghost use Rattle.run_table.specs.Draining.{drain_answer, resting_behind, with_drained, wait_of, FitsRest};
ghost use Rattle.run_table.specs.Begun.{IsBegun, disk_in, recovered_table, IsPrepared, IsLeft};
ghost use Rattle.run_table.specs.Recovered.{IsRecovered, HoldsAll};
ghost use Rattle.run_table.specs.Ending.{end_ahead, Asks};
ghost use Rattle.run_table.specs.Holding.{without_turret};
ghost use Rattle.run_table.specs.Since.{Since};

use crate::answer::{Parts, StepAnswer, TableStep};
use crate::draining::{
    drain_before, flow_of, none_resting, resting_behind, wait_ahead, with_drained,
};
use crate::laws::who_is_waited_for_goes_on;
use crate::recording::Recording;
use crate::resting::Resting;
use crate::stepping::{flush_before, is_waiting, reason_of, take};
use disk_model::Disk;
use gate_file::GateFault;
use nc_moves::MoveList;
use nc_number::{Both, NoMemory, Path, Point};
use nc_outside::{Halt, Reason};
use nc_verify::Verified;
use path_state::{control_goes_as_the_flow_orders, waits_and_ends_stop_a_path};
use run_journal::{Journal, a_held_journal_leaves_its_records};
use run_records::{EntryList, Header};
use std::alloc::Global;
use std::marker::Model;
use two_path::{Machine, each_event_keeps_the_history, histories_are_runs};

/// The table of a run: an accepted pair, the machine, the history with its journal, and why it
/// stopped.
///
/// The machine is the fold of the history, which is legal. A path waits only while the other one
/// can go on.
#[derive(Drop)]
pub struct Table<D: Disk> {
    /// The accepted pair.
    verified: Verified,
    /// Its machine, which is the fold of the history.
    machine: Machine,
    /// The history, and the journal with a prefix of it.
    recording: Recording<D>,
    /// Why the table has stopped.
    halt: Option<Halt>,
    /// How many records it may still make.
    budget: u32,
    /// Whether the turret of each path rests for the wait that the path comes to.
    resting: Both<Resting>,
}

impl<D: Disk> Model for Table<D> {
    ghost use Rattle.std.specs.Coded.{codes};
    ghost use Rattle.nc_verify.specs.contracts.verified.Verified.{the_row};
    ghost use Rattle.run_table.specs.Kept.{TableView, IsTable};

    ghost Value = { TableView D };

    ghost coded = { Prim.hlevel (codes, the_row.coded) };

    ghost view = { λ t. record {
      verified = t.verified;
      machine = t.machine.machine;
      turns = t.machine.room;
      recording = t.recording;
      halt = t.halt;
      budget = t.budget;
      resting = t.resting;
    } };

    ghost invariant = { λ t. IsTable D.state (record {
      verified = t.verified;
      machine = t.machine.machine;
      turns = t.machine.room;
      recording = t.recording;
      halt = t.halt;
      budget = t.budget;
      resting = t.resting;
    }) };
}

impl<D: Disk> Table<D> {
    /// Begins a run of the pair on the disk, by a new journal with this header, whose three texts
    /// were accepted. `RunThere` comes exactly if the disk has a run already, which stays as it is,
    /// even if the disk fails. An error gives the disk back, and unless it is `DiskFault` nothing
    /// was written.
    pub fn begin(
        alloc: Global,
        verified: Verified,
        disk: D,
        header: &Header,
    ) -> Result<Table<D>, (D, GateFault)>
        requires short { IsShort header.now }
        requires verdict { IsVerdictOf header.now verified }
        ensures begun { BeginsRun header.now (D.state disk) (D.state (disk_in result)) (without_disk result) }
        ensures empty { IfOk result (IsBegun verified) }
        ensures journal { IfOk result (λ t. IsJournaled D.state header.now t.recording) }
    {
        let Ok(machine) = Machine::new(
            alloc,
            verified.left(),
            verified.right(),
            verified.settings(),
        ) else {
            return Err((disk, GateFault::NoMemory));
        };
        match Journal::begin(alloc, disk, header) {
            Ok(journal) => Ok(Table::from_recovered(
                verified,
                machine,
                EntryList::empty(alloc),
                journal,
            )),
            Err(refused) => Err(refused),
        }
    }

    /// The table of what one recovery found. If the history ends with an alarm, the table has
    /// stopped for it.
    pub fn from_recovered(
        verified: Verified,
        machine: Machine,
        entries: EntryList,
        journal: Journal<D>,
    ) -> Table<D>
        requires { IsRecovered D.state verified machine.machine entries.items journal }
        ensures table { result ≡ recovered_table verified machine entries journal }
        ensures journal { (header : Header) → HoldsAll D.state header entries.items journal
            → IsJournaled D.state header result.recording }
    {
        each_event_keeps_the_history();
        a_held_journal_leaves_its_records::<D>();
        let halt = match machine.alarm() {
            Some(alarm) => Some(Halt::Alarm(alarm)),
            None => None,
        };
        Table {
            verified,
            machine,
            recording: Recording::over(entries, journal),
            halt,
            budget: 0,
            resting: none_resting(),
        }
    }

    /// Makes room for `n` records more, which take no memory then, and gives leave for so many
    /// until the next call. Then no turret counts as told to rest for a wait. If memory runs out, the
    /// leave is what it was.
    pub fn prepare(&mut self, n: u32) -> Result<(), NoMemory>
        ensures { IsPrepared n self.old self.new result }
    {
        self.machine.reserve(n as usize)?;
        self.recording.reserve(n as usize)?;
        self.budget = n;
        self.resting = none_resting();
        Ok(())
    }

    /// Why no turn comes though nothing has stopped the table: its journal is full, or its budget
    /// is spent.
    fn bound(&self) -> Option<Halt>
        ensures { result ≡ bound_of self.now }
    {
        if self.recording.len() == self.verified.settings().records as usize {
            return Some(Halt::Full);
        }
        if self.budget == 0 {
            return Some(Halt::Budget);
        }
        None
    }

    /// The code of the wait to which the path's next turn would bring it, if it would.
    fn wait_ahead(&self, path: Path) -> Option<u16>
        ensures { result ≡ wait_of (turn_of (tapes_in self.now.verified) path self.now.machine).turn }
    {
        control_goes_as_the_flow_orders();
        waits_and_ends_stop_a_path();
        wait_ahead(&self.machine, flow_of(&self.verified, path), path)
    }

    /// What is answered to the path instead of its next turn, if that would bring it to a wait for
    /// which its turret does not rest.
    fn drain_due(&self, path: Path) -> Option<StepAnswer>
        ensures { result ≡ drain_answer (drains self.now path) }
    {
        drain_before(*self.resting.of(path), self.wait_ahead(path))
    }

    /// Whether the path waits, and nothing has stopped the table: it has no reason, its journal is
    /// not full, and there is budget left.
    pub fn waits(&self, path: Path) -> bool
        ensures { result ≡ waits_in self.now path }
    {
        self.halt.is_none() && self.bound().is_none() && is_waiting(&self.machine, path)
    }

    /// One turn of the path, unless the table has stopped, its journal is full, or its budget is
    /// spent. Its moves are put into the list, which is cleared first: after an answer without any
    /// it is empty. It takes no memory.
    ///
    /// Its record joins the history. A block without moves shows nothing, so its record may pend.
    /// All that pends is on the disk before an answer that shows more, before `Full` and `Budget`,
    /// and at 64 that pend. If the disk fails in that, the answer is `DiskFault`, and
    /// `Halted(Disk)` from then on.
    ///
    /// The answer is `Drain`, and there is no turn, if the turn would bring the path to a wait, once
    /// for each wait; until the path was drained the answer is `Undrained` then. So a wait is
    /// recorded only while the path's turret rests for it.
    pub fn step_into(&mut self, path: Path, moves: &mut MoveList) -> StepAnswer
        ensures step { IsStep D.state (step_of self.old path) self.old self.new (step_with result moves.new) }
        ensures apart { moves_of_step (step_with result moves.new) ≡ moves.new }
        ensures since { Since D.state self.old self.new }
        ensures resting { self.new.resting ≡ resting_behind path (step_with result moves.new) self.old.resting }
        ensures rests { FitsRest (of_path self.old.resting path) (step_with result moves.new) }
        // Where the path waits, the other one has a turn of a block.
        ensures goes_on { (code : ℕ) → step_with result moves.new ≡ step.Turned (turn.Waiting code)
            → GoesOn (tapes_in self.new.verified) (other_of path) self.new.machine }
    {
        each_event_keeps_the_history();
        histories_are_runs();
        who_is_waited_for_goes_on();
        control_goes_as_the_flow_orders();
        waits_and_ends_stop_a_path();
        moves.clear();
        if let Some(why) = self.halt {
            return StepAnswer::Halted(why);
        }
        if let Some(why) = self.bound() {
            let answer = flush_before(&mut self.recording, StepAnswer::Halted(why), moves);
            self.halt = reason_of(&answer, moves);
            return answer;
        }
        if let Some(answer) = self.drain_due(path) {
            self.resting = resting_behind(self.resting, path, &answer, moves);
            return answer;
        }
        let turned = self
            .machine
            .turn_into(self.verified.left(), self.verified.right(), path, moves);
        let answer = take(&mut self.recording, &mut self.budget, turned, moves);
        self.halt = reason_of(&answer, moves);
        self.resting = resting_behind(self.resting, path, &answer, moves);
        answer
    }

    /// One turn of the path, as [`step_into`](Table::step_into) makes it, with its moves in the
    /// answer.
    pub fn step(&mut self, path: Path) -> TableStep
        ensures step { IsStep D.state (step_of self.old path) self.old self.new result }
        ensures since { Since D.state self.old self.new }
        ensures resting { self.new.resting ≡ resting_behind path result self.old.resting }
        ensures rests { FitsRest (of_path self.old.resting path) result }
        // Where the path waits, the other one has a turn of a block.
        ensures goes_on { (code : ℕ) → result ≡ step.Turned (turn.Waiting code)
            → GoesOn (tapes_in self.new.verified) (other_of path) self.new.machine }
    {
        let mut moves = MoveList::empty();
        let answer = self.step_into(path, &mut moves);
        TableStep::of(answer, moves)
    }

    /// Tells the table that the path's turret has made all that was answered to the path, and rests.
    pub fn drained(&mut self, path: Path)
        ensures { self.new ≡ record self.old { resting = with_drained path self.old.resting } }
    {
        self.resting = with_drained(self.resting, path);
    }

    /// The end of a run whose disk has not failed, and of which records may pend: an alarm, the
    /// ends of both paths, a full journal, or a spent budget.
    fn end_ahead(&self) -> Option<Reason>
        ensures { result ≡ end_ahead self.now }
    {
        Reason::of_end(self.machine.end(), self.bound())
    }

    /// Why the run has ended, with all its records on the disk, or none if it goes on. If the disk
    /// fails in the flush, that is the end, and the table keeps it as its reason.
    pub(crate) fn ended(&mut self) -> Option<Reason>
        ensures since { Since D.state self.old self.new }
        ensures asks { Asks self.old self.new result }
        ensures table { IsTable D.state self.old }
    {
        if let Some(Halt::Disk) = self.halt {
            return Some(Reason::DiskFault);
        }
        let end = self.end_ahead()?;
        match self.recording.flush() {
            Ok(()) => Some(end),
            Err(_) => {
                self.halt = Some(Halt::Disk);
                Some(Reason::DiskFault)
            }
        }
    }

    /// Where the turret of the path stands, in 0.001 mm.
    pub fn position(&self, path: Path) -> Point
        ensures { result ≡ (of_path self.now.machine.paths path).path.position }
    {
        self.machine.path(path).position()
    }

    /// Stops the table for a turret that failed, unless it has stopped already.
    pub fn halt(&mut self, why: Halt)
        requires { (path : Path) × (why ≡ halt.Turret path) }
        ensures { self.new ≡ record self.old { halt = first_reason self.old.halt why } }
    {
        if self.halt.is_none() {
            self.halt = Some(why);
        }
    }

    /// Forgets the reason to stop if it is a turret's fault.
    pub(crate) fn drop_turret(&mut self)
        ensures new { self.new ≡ record self.old { halt = without_turret self.old.halt } }
        ensures table { IsTable D.state self.new }
    {
        if let Some(Halt::Turret(_)) = self.halt {
            self.halt = None;
        }
    }

    /// How many records there are.
    pub(crate) fn count(&self) -> usize
        ensures count { result ≡ length self.now.recording.history }
        ensures within { self.now.recording.flushed ≤ length self.now.recording.history }
        ensures table { IsTable D.state self.now }
    {
        self.recording.len()
    }

    /// Takes the table apart. Records that pend are not written any more.
    pub fn into_parts(self) -> Parts<D>
        ensures parts { IsLeft self result.verified result.machine result.entries result.halt result.disk }
        ensures kept { IsKept (tapes_in self.verified) (opening_of self.verified) self.recording.history self.machine }
        ensures few { length self.recording.history ≤ self.verified.settings.records }
        ensures pending { length self.recording.history ≤ self.recording.flushed + MOST_PENDING }
        ensures live { self.halt ≢ Some halt.Disk → IsTrue self.recording.log.file.live }
    {
        let Table {
            verified,
            machine,
            recording,
            halt,
            budget: _,
            resting: _,
        } = self;
        let (entries, disk) = recording.into_parts();
        Parts {
            verified,
            machine,
            entries,
            halt,
            disk,
        }
    }
}
