//! The turn of a block: it is decided first (decision.rt), and then done here. Tests call `advance`,
//! and nobody `peek`.
ghost use Rattle.std.specs.Prelude.{◌≡◌, false, [], List};
ghost use Rattle.nc_moves.specs.declared.motion.Move.{Move};
ghost use Rattle.block_order.specs.Frames.{MayPass};
ghost use Rattle.block_words.specs.Codes.{is_macro};
ghost use Rattle.block_order.specs.declared.control.Control.TheVariants as Control;
ghost use Rattle.tape_flow.specs.Places.{line_at};
ghost use Rattle.path_state.specs.Advances.{effect_told, effect_seen, moves_of, path_after, StaysUnlessTold, StaysUnlessDone, AreFitMoves, AreMovesAt};
ghost use Rattle.path_state.specs.Decisions.{effect_of_decision, words_decided, behind_words, MayTake, MayTakeWords};
ghost use Rattle.path_state.specs.Fits.{HasFitWords, IsFit, IsFitTurn};
ghost use Rattle.path_state.specs.Effect.{block_of_words, effect_of, effect_of_body, macro_effect};
ghost use Rattle.path_state.specs.StatementSteps.{step_seen};

use crate::advance::{Advance, BlockAnswer};
use crate::decision::{Decision, answer_of_stop, macro_call};
use crate::path::PathState;
use crate::words_step::{WordsStep, WordsTurn};
use crate::writing::StatementStep;
use block_forms::{FlowBlock, FlowBody, FlowWords};
use block_order::{BlockOrder, Control};
use block_values::Stop;
use nc_moves::{MoveList, Moves};
use nc_number::{Cause, Var};
use tape_flow::Flow;

impl PathState {
    /// Does what the words of a block do, but for where control goes.
    fn take_step(&mut self, step: WordsStep)
        requires { IsFit step }
        ensures { self.new ≡ behind_words self.old step }
    {
        let WordsStep {
            modal,
            offset,
            position,
        } = step;
        self.modal = modal;
        if let Some((slot, to)) = offset {
            self.offsets.put(&slot, to);
        }
        self.position = position;
    }

    /// Does what was decided of words that call no macro, and answers.
    fn take_words(&mut self, turn: WordsTurn) -> BlockAnswer
        requires fit { IsFitTurn turn }
        requires may { MayTakeWords self.old turn }
        ensures effect { (moves : List Move) → effect_told result moves self.new ≡ words_decided self.old turn moves }
        ensures stays { StaysUnlessTold result self.old self.new }
    {
        match turn {
            WordsTurn::Stops(stop) => answer_of_stop(stop),
            WordsTurn::AtWait(code) => BlockAnswer::AtWait(code),
            WordsTurn::AtEnd(step) => {
                self.take_step(step);
                BlockAnswer::AtEnd
            }
            WordsTurn::Goes(step, route) => {
                self.take_step(step);
                self.standing.go(route);
                BlockAnswer::Done(None)
            }
        }
    }

    /// Does what was decided of the block at which the path stands. Its moves stand in the list
    /// that was lent to [`decide`](PathState::decide).
    ///
    /// If the block must read, is a wait or raises an alarm, nothing changes. At its end the path
    /// takes the effects of the block, and stays on it.
    pub fn take(&mut self, decision: Decision) -> BlockAnswer
        requires fit { HasFitWords decision }
        requires may { MayTake self.old decision }
        ensures effect { (moves : List Move)
            → effect_told result moves self.new ≡ effect_of_decision self.old decision moves }
        ensures stays { StaysUnlessTold result self.old self.new }
    {
        match decision {
            Decision::Stops(stop) => answer_of_stop(stop),
            Decision::Words(turn) => self.take_words(turn),
            Decision::Macro {
                program,
                repeats,
                arguments,
            } => {
                self.standing.call_macro(program, repeats, &arguments);
                BlockAnswer::Done(None)
            }
            Decision::Statement(step) => BlockAnswer::Done(self.take_statement(step)),
        }
    }

    /// The turn of the block at which the path stands, with the values of shared variables that
    /// were read for it so far. Its moves are put into the list, which is cleared first.
    ///
    /// Where it must read, stands at a wait or raises an alarm, nothing else changes. At its end
    /// the path takes the effects of the block, and stays on it.
    pub fn advance_into(&mut self, flow: &Flow, reads: &[Var], moves: &mut MoveList) -> BlockAnswer
        ensures effect { effect_told result moves.new self.new ≡ effect_of flow.now self.old reads.now }
        ensures stays { StaysUnlessTold result self.old self.new }
        ensures moves { moves.new ≡ moves_of (effect_of flow.now self.old reads.now) }
        ensures fit { AreFitMoves moves.new }
    {
        moves.clear();
        match self.block(flow) {
            Some(block) => self.take_block(&flow.order, block, reads, moves),
            None => answer_of_stop(Stop::of(Cause::RanOff)),
        }
    }

    /// The turn of a block, decided and done. What words come to is large, and so are the arguments
    /// of a macro, so each kind of block has a function of its own.
    fn take_block(
        &mut self,
        order: &BlockOrder,
        block: &FlowBlock,
        reads: &[Var],
        moves: &mut MoveList,
    ) -> BlockAnswer
        requires next { MayPass self.old.place }
        requires empty { moves.old ≡ [] }
        ensures effect { effect_told result moves.new self.new
            ≡ effect_of_body order.now self.old.fixed self.old block.now.body block.now.control reads.now }
        ensures stays { StaysUnlessTold result self.old self.new }
        ensures moves { moves.new
            ≡ moves_of (effect_of_body order.now self.old.fixed self.old block.now.body block.now.control reads.now) }
        ensures fit { AreFitMoves moves.new }
    {
        match &block.body {
            FlowBody::Words(words) => match macro_call(words, block.control) {
                Some((program, repeats)) => self.macro_turn(order, words, program, repeats, reads),
                None => self.words_turn(order, words, block.control, reads, moves),
            },
            FlowBody::Statement(statement) => {
                let step = self.statement_step(order, statement, reads);
                self.statement_turn(step)
            }
        }
    }

    /// The turn of words that call no macro, decided and done; the moves are put into the list.
    #[tactic(auto, using(crate::proofs::Decided::may_take_words))]
    #[inline(never)]
    fn words_turn(
        &mut self,
        order: &BlockOrder,
        words: &FlowWords,
        control: Control,
        reads: &[Var],
        moves: &mut MoveList,
    ) -> BlockAnswer
        requires calls { is_macro words.now.purpose ≡ false }
        requires next { MayPass self.old.place }
        requires empty { moves.old ≡ [] }
        ensures effect { effect_told result moves.new self.new ≡ block_of_words order.now self.old.fixed self.old
            words.now.purpose words.now.dialect.system words.now.words control reads.now }
        ensures stays { StaysUnlessTold result self.old self.new }
        ensures moves { moves.new ≡ moves_of (block_of_words order.now self.old.fixed self.old
            words.now.purpose words.now.dialect.system words.now.words control reads.now) }
        ensures fit { AreFitMoves moves.new }
    {
        let turn = self.decide_words(order, words, control, reads, moves);
        self.take_words(turn)
    }

    /// The turn of words that call a macro, decided and done; it moves nothing.
    #[inline(never)]
    fn macro_turn(
        &mut self,
        order: &BlockOrder,
        words: &FlowWords,
        program: u16,
        repeats: u16,
        reads: &[Var],
    ) -> BlockAnswer
        requires { MayPass self.old.place }
        ensures effect { effect_told result [] self.new ≡ macro_effect order.now self.old.fixed self.old
            words.now.words (Control.Call program repeats) reads.now }
        ensures stays { StaysUnlessTold result self.old self.new }
        ensures still { moves_of (macro_effect order.now self.old.fixed self.old words.now.words
            (Control.Call program repeats) reads.now) ≡ [] }
    {
        match self.decide_macro(order, words, program, repeats, reads) {
            Ok(arguments) => {
                self.standing.call_macro(program, repeats, &arguments);
                BlockAnswer::Done(None)
            }
            Err(stop) => answer_of_stop(stop),
        }
    }

    /// The turn of a statement of which this was decided; it moves nothing.
    fn statement_turn(&mut self, step: Result<StatementStep, Stop>) -> BlockAnswer
        requires { MayPass self.old.place }
        ensures effect { effect_told result [] self.new ≡ step_seen self.old step }
        ensures stays { StaysUnlessTold result self.old self.new }
        ensures still { moves_of (step_seen self.old step) ≡ [] }
    {
        match step {
            Ok(step) => BlockAnswer::Done(self.take_statement(step)),
            Err(stop) => answer_of_stop(stop),
        }
    }

    /// The turn of the block at which the path stands, with the values of shared variables that
    /// were read for it so far.
    ///
    /// Where it must read, stands at a wait or raises an alarm, nothing changes. At its end the
    /// path takes the effects of the block, and stays on it.
    pub fn advance(&mut self, flow: &Flow, reads: &[Var]) -> Advance
        ensures effect { effect_seen result self.new ≡ effect_of flow.now self.old reads.now }
        ensures stays { StaysUnlessDone result self.old self.new }
        ensures moves { AreMovesAt (line_at flow.now.order self.old.place) result }
    {
        let line = self.line(flow);
        let mut list = MoveList::empty();
        let answer = self.advance_into(flow, reads, &mut list);
        Advance::of(answer, Moves { line, list })
    }

    /// What [`advance`](PathState::advance) would answer; nothing changes.
    pub fn peek(&self, flow: &Flow, reads: &[Var]) -> Advance
        ensures effect { effect_seen result (path_after self.now (effect_of flow.now self.now reads.now))
            ≡ effect_of flow.now self.now reads.now }
        ensures moves { AreMovesAt (line_at flow.now.order self.now.place) result }
    {
        let line = self.line(flow);
        let mut list = MoveList::empty();
        let answer = self.decide(flow, reads, &mut list).answer();
        Advance::of(answer, Moves { line, list })
    }
}
