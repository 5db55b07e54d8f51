//! The machine of two paths, by its public calls: a turn, an edit, a record done again, and what may
//! be seen of it. The turns themselves are in turning.rt, again.rt and editing.rt.
ghost use Rattle.std.specs.Prelude.{◌≡◌, ◌≤◌, ◌<◌, ◌+◌, ◌↔◌, IsTrue, List, [], Some, None, IfOk, OnOk, OnErr};
ghost use Rattle.nc_number.specs.declared.limits.TheConstants.{MOST_RECORDS};
ghost use Rattle.nc_number.specs.Both.{of_path};
ghost use Rattle.common_vars.specs.Writes.{IsShared, value_after};
ghost use Rattle.block_order.specs.declared.program.ControlProgram.{ControlProgram};
ghost use Rattle.motion_track.specs.Within.{AreMovesWithin};
ghost use Rattle.two_path.specs.Machine.{without_reads};
ghost use Rattle.two_path.specs.Start.{machine_at_start};
ghost use Rattle.two_path.specs.Turns.{Tapes, tapes_of, turn_of, entry_of};
ghost use Rattle.run_records.specs.Entries.{edit_of};
ghost use Rattle.two_path.specs.Edits.{behind_edit_of, edit_entry};
ghost use Rattle.two_path.specs.Joined.{AreAtTheirWaits};
ghost use Rattle.two_path.specs.Again.{IsDoneAgain, IsRefused};
ghost use Rattle.two_path.specs.Made.{answer_of, moves_of_turn, turn_with};

use crate::again::{Illegal, do_again};
use crate::editing::set;
use crate::joint::Joint;
use crate::part::Part;
use crate::turn::{Answered, Turn, TurnAnswer, Turned};
use crate::turning::take_turn;
use cell_settings::Settings;
use motion_track::LONGEST;
use nc_moves::{Alarm, MoveList};
use nc_number::{Both, NoMemory, Path, Var};
use path_state::{PathState, control_goes_as_the_flow_orders};
use run_records::{Edit, Entry};
use std::alloc::Global;
use std::marker::Model;
use tape_flow::Flow;

/// The machine: two paths that take turns, and what they share.
///
/// It is used with the flows of which it was made, the left one for path 1 and the right one for
/// path 2.
#[derive(Debug, Drop)]
pub struct Machine {
    /// Each path in the machine.
    paths: Both<Part>,
    /// What both paths have in common.
    joint: Joint,
}

impl Model for Machine {
    ghost use Rattle.two_path.specs.Joined.{RoomyMachine, AreShared, machine_of};

    ghost Value = { RoomyMachine };

    ghost view = { λ m. record { machine = machine_of m.paths.one m.paths.two m.joint; room = m.joint.shared.room } };

    ghost invariant = { λ m. AreShared m.paths.one m.joint × AreShared m.paths.two m.joint };
}

impl Machine {
    /// Both paths at the first block of their main programs, as the settings have them. The error
    /// is that memory ran out.
    pub fn new(
        alloc: Global,
        left: &Flow,
        right: &Flow,
        settings: &Settings,
    ) -> Result<Machine, NoMemory>
        ensures { IfOk result (λ m. m.machine ≡ machine_at_start left.now right.now settings.now) }
    {
        let one = PathState::new(alloc, left, settings, Path::One)?;
        let two = PathState::new(alloc, right, settings, Path::Two)?;
        let joint = Joint::new(alloc, settings.shared100, settings.shared500)?;
        Ok(Machine {
            paths: Both {
                one: Part::new(one),
                two: Part::new(two),
            },
            joint,
        })
    }

    /// Makes room for `n` more records. The error is that memory ran out.
    pub fn reserve(&mut self, n: usize) -> Result<(), NoMemory>
        ensures machine { self.new.machine ≡ self.old.machine }
        ensures room { OnOk result (n ≤ self.new.room) }
        ensures no_less { self.old.room ≤ self.new.room }
    {
        self.joint.reserve(n)
    }

    /// One turn of the path, and its record if it makes one. Its moves are put into the list, which
    /// is cleared first: they are those that the answer of [`turn`](Machine::turn) would hold. It
    /// takes no memory.
    ///
    /// It asks for what [`turn`](Machine::turn) asks for.
    pub fn turn_into(
        &mut self,
        left: &Flow,
        right: &Flow,
        path: Path,
        moves: &mut MoveList,
    ) -> Answered
        requires room { 0 < self.old.room }
        requires few { self.old.machine.count < MOST_RECORDS }
        requires waits { AreAtTheirWaits left.now.order right.now.order self.old.machine }
        ensures machine { self.new.machine ≡ (turn_of (tapes_of left.now right.now) path self.old.machine).machine }
        ensures answer { result.answer ≡ answer_of (turn_of (tapes_of left.now right.now) path self.old.machine).turn }
        ensures moves { moves.new ≡ moves_of_turn (turn_of (tapes_of left.now right.now) path self.old.machine).turn }
        ensures entry { result.entry ≡ entry_of (tapes_of left.now right.now) path self.old.machine }
        ensures room { self.old.machine.count + self.old.room ≤ self.new.machine.count + self.new.room }
        ensures waits { AreAtTheirWaits left.now.order right.now.order self.new.machine }
        ensures within { AreMovesWithin LONGEST moves.new }
    {
        control_goes_as_the_flow_orders();
        let Both { one, two } = &mut self.paths;
        match path {
            Path::One => take_turn(one, two, &mut self.joint, left, right, Path::One, moves),
            Path::Two => take_turn(two, one, &mut self.joint, right, left, Path::Two, moves),
        }
    }

    /// One turn of the path, and its record if it makes one. It takes no memory. Its moves lead to
    /// positions, and no I, K or R of theirs is longer than the longest length.
    ///
    /// It asks for room for a record, and for fewer than 4,000,000 records.
    #[tactic(auto, using(crate::proofs::Apart::rejoined))]
    pub fn turn(&mut self, left: &Flow, right: &Flow, path: Path) -> Turned
        requires room { 0 < self.old.room }
        requires few { self.old.machine.count < MOST_RECORDS }
        requires waits { AreAtTheirWaits left.now.order right.now.order self.old.machine }
        ensures machine { self.new.machine ≡ (turn_of (tapes_of left.now right.now) path self.old.machine).machine }
        ensures turn { result.turn ≡ (turn_of (tapes_of left.now right.now) path self.old.machine).turn }
        ensures entry { result.entry ≡ entry_of (tapes_of left.now right.now) path self.old.machine }
        ensures room { self.old.machine.count + self.old.room ≤ self.new.machine.count + self.new.room }
        ensures waits { AreAtTheirWaits left.now.order right.now.order self.new.machine }
        ensures moves { AreMovesWithin LONGEST (moves_of_turn result.turn) }
    {
        let mut moves = MoveList::empty();
        let Answered { answer, entry } = self.turn_into(left, right, path, &mut moves);
        Turned {
            turn: Turn::of(answer, moves),
            entry,
        }
    }

    /// An operator's edit of the path, which sets an offset or a common variable, and its record.
    /// It takes no memory. Both paths' blocks read anew, what is there after it.
    ///
    /// It asks for room for a record, for fewer than 4,000,000 records, and that no alarm has
    /// stopped both paths.
    pub fn edit(&mut self, path: Path, what: &Edit) -> Entry
        requires room { 0 < self.old.room }
        requires few { self.old.machine.count < MOST_RECORDS }
        requires calm { self.old.machine.alarm ≡ None }
        ensures machine { self.new.machine ≡ behind_edit_of path what.now self.old.machine }
        ensures entry { result ≡ edit_entry path what.now }
        ensures room { self.old.machine.count + self.old.room ≤ self.new.machine.count + self.new.room }
        ensures waits { (left right : List ControlProgram) → AreAtTheirWaits left right self.old.machine
            → AreAtTheirWaits left right self.new.machine }
    {
        self.set(path, what);
        Entry::of_edit(path, what)
    }

    /// Sets what the edit sets, by one record more.
    fn set(&mut self, path: Path, what: &Edit)
        requires room { 0 < self.old.room }
        requires few { self.old.machine.count ≤ MOST_RECORDS }
        ensures machine { self.new.machine ≡ behind_edit_of path what.now self.old.machine }
        ensures room { self.old.machine.count + self.old.room ≤ self.new.machine.count + self.new.room }
        ensures no_reads { without_reads self.new.machine ≡ self.new.machine }
        ensures waits { (left right : List ControlProgram) → AreAtTheirWaits left right self.old.machine
            → AreAtTheirWaits left right self.new.machine }
    {
        let Both { one, two } = &mut self.paths;
        match path {
            Path::One => set(one, two, &mut self.joint, what),
            Path::Two => set(two, one, &mut self.joint, what),
        }
    }

    /// Does the record again, and answers what its turn answered, or that it was an edit. Its moves
    /// are put into the list, which is cleared first and is empty if the record is illegal. It
    /// takes no memory.
    ///
    /// It asks for what [`apply`](Machine::apply) asks for.
    pub fn apply_into(
        &mut self,
        left: &Flow,
        right: &Flow,
        entry: &Entry,
        moves: &mut MoveList,
    ) -> Result<TurnAnswer, Illegal>
        requires room { 0 < self.old.room }
        requires few { self.old.machine.count ≤ MOST_RECORDS }
        requires no_reads { without_reads self.old.machine ≡ self.old.machine }
        requires waits { AreAtTheirWaits left.now.order right.now.order self.old.machine }
        ensures done { IfOk result (λ answer. IsDoneAgain (tapes_of left.now right.now) entry.now
            self.old.machine self.new.machine (turn_with answer moves.new)) }
        ensures apart { IfOk result (λ answer. moves_of_turn (turn_with answer moves.new) ≡ moves.new) }
        ensures none { OnErr result (moves.new ≡ []) }
        ensures refused { OnErr result (IsRefused (tapes_of left.now right.now) entry.now
            self.old.machine self.new.machine) }
        ensures room { self.old.machine.count + self.old.room ≤ self.new.machine.count + self.new.room }
        ensures no_reads { without_reads self.new.machine ≡ self.new.machine }
        ensures waits { AreAtTheirWaits left.now.order right.now.order self.new.machine }
        ensures within { IfOk result (λ answer. AreMovesWithin LONGEST moves.new) }
    {
        match entry.kind.edit() {
            Some(what) => self.edit_again(entry, what, moves),
            None => self.step_again(left, right, entry, moves),
        }
    }

    /// Does the record again, and answers what its turn answered, or that it was an edit. It takes
    /// no memory.
    ///
    /// It asks for room for a record, for at most 4,000,000 records, and for a machine whose blocks
    /// have read nothing. A record that can't follow those before it is illegal, and nothing
    /// changes. The moves are as far as those of a turn.
    pub fn apply(&mut self, left: &Flow, right: &Flow, entry: &Entry) -> Result<Turn, Illegal>
        requires room { 0 < self.old.room }
        requires few { self.old.machine.count ≤ MOST_RECORDS }
        requires no_reads { without_reads self.old.machine ≡ self.old.machine }
        requires waits { AreAtTheirWaits left.now.order right.now.order self.old.machine }
        ensures done { IfOk result (λ turn. IsDoneAgain (tapes_of left.now right.now) entry.now
            self.old.machine self.new.machine turn) }
        ensures refused { OnErr result (IsRefused (tapes_of left.now right.now) entry.now
            self.old.machine self.new.machine) }
        ensures room { self.old.machine.count + self.old.room ≤ self.new.machine.count + self.new.room }
        ensures no_reads { without_reads self.new.machine ≡ self.new.machine }
        ensures waits { AreAtTheirWaits left.now.order right.now.order self.new.machine }
        ensures moves { IfOk result (λ turn. AreMovesWithin LONGEST (moves_of_turn turn)) }
    {
        let mut moves = MoveList::empty();
        match self.apply_into(left, right, entry, &mut moves) {
            Ok(answer) => Ok(Turn::of(answer, moves)),
            Err(illegal) => Err(illegal),
        }
    }

    /// Does the record of an edit again. It is illegal if an alarm has stopped both paths.
    #[tactic(auto, using(crate::proofs::NoMoves::none_within))]
    fn edit_again(
        &mut self,
        entry: &Entry,
        what: &Edit,
        moves: &mut MoveList,
    ) -> Result<TurnAnswer, Illegal>
        requires edit { edit_of entry.now.kind ≡ Some what.now }
        requires room { 0 < self.old.room }
        requires few { self.old.machine.count ≤ MOST_RECORDS }
        ensures done { (tapes : Tapes) → IfOk result (λ answer. IsDoneAgain tapes entry.now
            self.old.machine self.new.machine (turn_with answer moves.new)) }
        ensures apart { IfOk result (λ answer. moves_of_turn (turn_with answer moves.new) ≡ moves.new) }
        ensures none { OnErr result (moves.new ≡ []) }
        ensures refused { (tapes : Tapes) → OnErr result (IsRefused tapes entry.now self.old.machine self.new.machine) }
        ensures room { self.old.machine.count + self.old.room ≤ self.new.machine.count + self.new.room }
        ensures no_reads { without_reads self.old.machine ≡ self.old.machine
            → without_reads self.new.machine ≡ self.new.machine }
        ensures waits { (left right : List ControlProgram) → AreAtTheirWaits left right self.old.machine
            → AreAtTheirWaits left right self.new.machine }
        ensures within { IfOk result (λ answer. AreMovesWithin LONGEST moves.new) }
    {
        moves.clear();
        if self.joint.alarm().is_some() {
            return Err(Illegal);
        }
        self.set(entry.path, what);
        Ok(TurnAnswer::Edited)
    }

    /// Does the record of a path's step again. Its moves are put into the list, which is empty if
    /// the record is illegal.
    fn step_again(
        &mut self,
        left: &Flow,
        right: &Flow,
        entry: &Entry,
        moves: &mut MoveList,
    ) -> Result<TurnAnswer, Illegal>
        requires step { edit_of entry.now.kind ≡ None }
        requires room { 0 < self.old.room }
        requires few { self.old.machine.count ≤ MOST_RECORDS }
        requires no_reads { without_reads self.old.machine ≡ self.old.machine }
        requires waits { AreAtTheirWaits left.now.order right.now.order self.old.machine }
        ensures done { IfOk result (λ answer. IsDoneAgain (tapes_of left.now right.now) entry.now
            self.old.machine self.new.machine (turn_with answer moves.new)) }
        ensures apart { IfOk result (λ answer. moves_of_turn (turn_with answer moves.new) ≡ moves.new) }
        ensures none { OnErr result (moves.new ≡ []) }
        ensures refused { OnErr result (IsRefused (tapes_of left.now right.now) entry.now
            self.old.machine self.new.machine) }
        ensures room { self.old.machine.count + self.old.room ≤ self.new.machine.count + self.new.room }
        ensures no_reads { without_reads self.new.machine ≡ self.new.machine }
        ensures waits { AreAtTheirWaits left.now.order right.now.order self.new.machine }
        ensures within { IfOk result (λ answer. AreMovesWithin LONGEST moves.new) }
    {
        let Both { one, two } = &mut self.paths;
        match entry.path {
            Path::One => do_again(one, two, &mut self.joint, left, right, entry, moves),
            Path::Two => do_again(two, one, &mut self.joint, right, left, entry, moves),
        }
    }

    /// The path's part.
    fn part(&self, path: Path) -> &Part
        ensures { result.now ≡ of_path self.now.machine.paths path }
    {
        self.paths.of(path)
    }

    /// The path's state, as its block begins.
    pub fn path(&self, path: Path) -> &PathState
        ensures { result.now ≡ (of_path self.now.machine.paths path).path }
    {
        self.part(path).path()
    }

    /// The code of the wait at which the path waits, if it waits.
    pub fn waiting(&self, path: Path) -> Option<u16>
        ensures { result ≡ (of_path self.now.machine.paths path).waiting }
    {
        self.part(path).waiting()
    }

    /// Whether the path has ended.
    pub fn finished(&self, path: Path) -> bool
        ensures { result ≡ (of_path self.now.machine.paths path).finished }
    {
        self.part(path).finished()
    }

    /// The alarm that stopped both paths, if one did.
    pub fn alarm(&self) -> Option<Alarm>
        ensures { result ≡ self.now.machine.alarm }
    {
        self.joint.alarm()
    }

    /// Whether both paths share the variable `#v`.
    pub fn is_shared(&self, v: u32) -> bool
        ensures { IsTrue result ↔ IsShared self.now.machine.paths.one.path.fixed.shared100
            self.now.machine.paths.one.path.fixed.shared500 v }
    {
        self.joint.holds(v)
    }

    /// What the shared variable `#v` holds.
    pub fn shared(&self, v: u32) -> Var
        requires { IsShared self.now.machine.paths.one.path.fixed.shared100
            self.now.machine.paths.one.path.fixed.shared500 v }
        ensures { result ≡ value_after self.now.machine.count v self.now.machine.writes }
    {
        self.joint.at(self.joint.count(), v)
    }

    /// How many records there are.
    pub fn count(&self) -> u32
        ensures { result ≡ self.now.machine.count }
    {
        self.joint.count()
    }
}
