//! One path in the machine: its state, what its block has read, and whether it waits or has ended.
//! For this crate alone: again.rt, editing.rt, machine.rt and turning.rt use it.
ghost use Rattle.std.specs.Prelude.{◌≡◌, ◌<◌, ℕ, List, [], ◌∷◌, ◌++◌, Some, None, true, length};
ghost use Rattle.nc_number.specs.declared.limits.TheConstants.{MOST_READS};
ghost use Rattle.block_order.specs.declared.control.Control.TheVariants.{Wait};
ghost use Rattle.block_order.specs.Steps.{control_of_place};
ghost use Rattle.path_state.specs.Decisions.{effect_of_decision, MayTake};
ghost use Rattle.path_state.specs.Edits.{path_with_edit};
ghost use Rattle.path_state.specs.Effect.{effect_of};
ghost use Rattle.path_state.specs.Fits.{HasFitWords};
ghost use Rattle.run_records.specs.Entries.{edit_of};
ghost use Rattle.two_path.specs.Machine.{opening_part, part_without_reads};
ghost use Rattle.two_path.specs.Turns.{Blocks, blocks_of, part_at, part_behind_wait};
ghost use Rattle.tape_flow.specs.Places.{line_at};
ghost use Rattle.nc_moves.specs.declared.motion.Move.{Move};
ghost use Rattle.two_path.specs.Joined.{AreItsMoves, IsDecided, HasTaken};

use arrayvec::ArrayVec;
use nc_moves::MoveList;
use nc_number::{MOST_READS, Path, Var};
use path_state::{BlockAnswer, Decision, PathState};
use run_records::{Edit, Entry, EntryKind, StampList};
use std::marker::Model;
use std::mem;
use tape_flow::Flow;

/// One path in the machine, with what its block has read so far.
#[derive(Debug, Drop)]
pub(crate) struct Part {
    /// Its state as its block begins.
    path: PathState,
    /// What its block has read so far.
    values: ArrayVec<Var, MOST_READS>,
    /// How many records there were at each of these reads.
    stamps: StampList,
    /// The code of the wait at which it waits.
    waiting: Option<u16>,
    /// Whether it has ended.
    finished: bool,
    /// How many records there were just after the one by which it came to its block, or just after
    /// a later edit.
    since: u32,
}

impl Model for Part {
    ghost use Rattle.std.specs.Prelude.{◌≤◌, length};
    ghost use Rattle.two_path.specs.Machine;

    ghost Value = { Machine.Part };

    ghost view = { λ p. record {
      path = p.path;
      values = p.values.items;
      stamps = p.stamps;
      waiting = p.waiting;
      finished = p.finished;
      since = p.since;
    } };

    ghost invariant = { λ p. length p.stamps ≤ length p.values.items };
}

impl Part {
    /// A path that has not begun.
    pub(crate) fn new(path: PathState) -> Part
        ensures { result ≡ opening_part path }
    {
        Part {
            path,
            values: ArrayVec::new(),
            stamps: StampList::empty(),
            waiting: None,
            finished: false,
            since: 0,
        }
    }

    /// Its state.
    pub(crate) fn path(&self) -> &PathState
        ensures { result.now ≡ self.now.path }
    {
        &self.path
    }

    /// The code of the wait at which it waits.
    pub(crate) fn waiting(&self) -> Option<u16>
        ensures { result ≡ self.now.waiting }
    {
        self.waiting
    }

    /// Whether it has ended.
    pub(crate) fn finished(&self) -> bool
        ensures { result ≡ self.now.finished }
    {
        self.finished
    }

    /// How many records there were just after the one by which it came to its block, or just after
    /// a later edit.
    pub(crate) fn since(&self) -> u32
        ensures { result ≡ self.now.since }
    {
        self.since
    }

    /// The line of its block.
    pub(crate) fn line(&self, flow: &Flow) -> u32
        ensures { result ≡ line_at flow.now.order self.now.path.place }
    {
        self.path.line(flow)
    }

    /// Does its block with what it has read, and answers what that came to; the moves of the block
    /// are put into the list.
    pub(crate) fn advance(&mut self, flow: &Flow, moves: &mut MoveList) -> BlockAnswer
        ensures taken { HasTaken (blocks_of flow.now) self.old self.new result moves.new }
        ensures moves { AreItsMoves (blocks_of flow.now) self.old moves.new }
    {
        self.path.advance_into(flow, self.values.as_slice(), moves)
    }

    /// What its block comes to with what it has read; the moves of the block are put into the list.
    /// Nothing of the path changes.
    pub(crate) fn decide(&self, flow: &Flow, moves: &mut MoveList) -> Decision
        ensures effect { effect_of_decision self.now.path result moves.new
            ≡ effect_of flow.now self.now.path self.now.values }
        ensures fit { HasFitWords result }
        ensures may { MayTake self.now.path result }
        ensures moves { AreItsMoves (blocks_of flow.now) self.now moves.new }
    {
        self.path.decide(flow, self.values.as_slice(), moves)
    }

    /// Does what was decided of its block, as [`advance`](Part::advance) would.
    pub(crate) fn take(&mut self, decision: Decision) -> BlockAnswer
        requires fit { HasFitWords decision }
        requires may { MayTake self.old.path decision }
        ensures { (blocks : Blocks) (moves : List Move) → IsDecided blocks self.old moves decision
            → HasTaken blocks self.old self.new result moves }
    {
        self.path.take(decision)
    }

    /// Keeps one read more of its block: the value, and how many records there were.
    pub(crate) fn read(&mut self, value: Var, stamp: u32)
        requires { length self.old.values < MOST_READS }
        ensures { self.new ≡ record self.old {
          values = self.old.values ++ value ∷ [];
          stamps = self.old.stamps ++ stamp ∷ [];
        } }
    {
        self.values.push(value);
        self.stamps.push(stamp);
    }

    /// Forgets what its block has read, and answers the stamps of these reads.
    pub(crate) fn forget(&mut self) -> StampList
        ensures stamps { result ≡ self.old.stamps }
        ensures path { self.new ≡ part_without_reads self.old }
    {
        self.values.clear();
        mem::replace(&mut self.stamps, StampList::empty())
    }

    /// The record of what its block did, with the stamps of its reads, which it forgets.
    pub(crate) fn entry(&mut self, path: Path, kind: EntryKind) -> Entry
        requires step { edit_of kind ≡ None }
        ensures entry { result ≡ record { path = path; kind = kind; stamps = self.old.stamps } }
        ensures path { self.new ≡ part_without_reads self.old }
    {
        Entry::of_step(path, kind, self.forget())
    }

    /// Keeps that it came to its block by the last of so many records.
    pub(crate) fn come(&mut self, since: u32)
        ensures { self.new ≡ record self.old { since = since } }
    {
        self.since = since;
    }

    /// Keeps that it waits at this code.
    pub(crate) fn wait(&mut self, code: u16)
        ensures { self.new ≡ record self.old { waiting = Some code } }
    {
        self.waiting = Some(code);
    }

    /// Keeps that it has ended.
    pub(crate) fn end(&mut self)
        ensures { self.new ≡ record self.old { finished = true } }
    {
        self.finished = true;
    }

    /// Goes on behind its wait, by the last of so many records.
    pub(crate) fn pass(&mut self, flow: &Flow, since: u32)
        requires { (code : ℕ) × (control_of_place flow.now.order self.old.path.place ≡ Some (Wait code)) }
        ensures { self.new ≡ part_behind_wait since self.old }
    {
        self.path.pass_wait(flow);
        self.read_anew(since);
        self.waiting = None;
    }

    /// Does an operator's edit of the path, the last of so many records. Its block reads anew.
    pub(crate) fn edit(&mut self, what: &Edit, since: u32)
        ensures { self.new ≡ part_at (path_with_edit what.now self.old.path) since self.old }
    {
        self.path.edit(what);
        self.read_anew(since);
    }

    /// Lets its block read anew, from the last of so many records on.
    pub(crate) fn read_anew(&mut self, since: u32)
        ensures { self.new ≡ part_at self.old.path since self.old }
    {
        self.values.clear();
        self.stamps = StampList::empty();
        self.since = since;
    }
}
