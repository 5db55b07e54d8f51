//! What a block comes to, decided before anything changes: by its kind, words, a macro call or a
//! statement. taking.rt does what was decided.
ghost use Rattle.std.specs.Prelude.{◌≡◌, false, List, [], None, Some, IsNone, IsSome, IfSome, IfOk};
ghost use Rattle.nc_moves.specs.declared.motion.Move.{Move};
ghost use Rattle.std.specs.Option.{option_copied};
ghost use Rattle.block_order.specs.Frames.{MayPass};
ghost use Rattle.block_words.specs.declared.purpose.Purpose.TheVariants.{MacroCall};
ghost use Rattle.block_forms.specs.Controls.{control_of_words};
ghost use Rattle.block_order.specs.declared.control.Control.{Control};
ghost use Rattle.block_order.specs.declared.program.ControlProgram.{ControlProgram};
ghost use Rattle.block_words.specs.Codes.{is_macro, rows};
ghost use Rattle.code_tables.specs.Kinds.{is_arc};
ghost use Rattle.modal_state.specs.Modal.{motion_after};
ghost use Rattle.path_state.specs.View.{PathView};
ghost use Rattle.path_state.specs.Advances.{moves_of, effect_told, path_after, AreFitMoves};
ghost use Rattle.path_state.specs.Effect.{Alarm, effect_of_words, block_at, block_of_words, effect_of_control, effect_of, effect_of_body, macro_effect, of_moved, words_effect};
ghost use Rattle.path_state.specs.Decisions.{behind_words, effect_of_decision, macro_decided, words_decided, of_arguments_said, of_said, effect_of_stop, MayTake};
ghost use Rattle.path_state.specs.StatementSteps.{after_step, write_seen};
ghost use Rattle.path_state.specs.Fits.{HasFitWords, IsFit, IsFitTurn};
ghost use Rattle.nc_number.specs.declared.value.Var.{Var};
ghost use Rattle.block_order.specs.declared.control.Control.TheVariants as Control;
ghost use Rattle.path_state.specs.Said.{sense_of};
ghost use Rattle.block_values.specs.Seen.{sense_seen, values_seen};
ghost use Rattle.block_values.specs.Within.{AreLengthsSaid};

use crate::advance::BlockAnswer;
use crate::path::{PathState, blocks_have_next};
use crate::words_step::{WordsStep, WordsTurn};
use crate::writing::{Change, StatementStep};
use block_forms::{FlowBlock, FlowBody, FlowWords, Purpose};
use block_order::{BlockOrder, Control};
use block_values::{Sense, Stop, Values, arguments_taken, words_taken};
use local_levels::LOCALS;
use nc_moves::MoveList;
use nc_number::{Cause, Var};
use tape_flow::Flow;

/// What the block at which a path stands comes to, its moves apart. [`decide`](PathState::decide)
/// answers it and changes nothing, and [`take`](PathState::take) does it.
#[derive(Drop)]
pub enum Decision {
    /// The block must read first, or raises an alarm.
    Stops(Stop),
    /// The block is words that call no macro.
    Words(WordsTurn),
    /// The block calls a macro, to run it so many times with these arguments.
    Macro {
        program: u16,
        repeats: u16,
        arguments: [Var; LOCALS],
    },
    /// The block is a statement, which comes to this.
    Statement(StatementStep),
}

/// The answer of a path whose block stopped: a need or an alarm.
pub(crate) fn answer_of_stop(stop: Stop) -> BlockAnswer
    ensures { (moves : List Move) (after : PathView) → effect_told result moves after ≡ effect_of_stop stop }
{
    match stop {
        Stop::Needs(variable) => BlockAnswer::Need(variable),
        Stop::Alarms { number, value } => BlockAnswer::Alarm {
            cause: number,
            value,
        },
    }
}

/// The answer of a path whose block is words of which this was decided.
pub(crate) fn answer_of_words(turn: &WordsTurn) -> BlockAnswer
    ensures { (path : PathView) (moves : List Move)
        → effect_told result moves (path_after path (words_decided path turn.now moves))
        ≡ words_decided path turn.now moves }
{
    match turn {
        WordsTurn::Stops(stop) => answer_of_stop(*stop),
        WordsTurn::AtWait(code) => BlockAnswer::AtWait(*code),
        WordsTurn::AtEnd(_) => BlockAnswer::AtEnd,
        WordsTurn::Goes(_, _) => BlockAnswer::Done(None),
    }
}

/// What a statement writes to a shared variable, if it writes to one.
fn shared_write(step: &StatementStep) -> Option<(u32, Var)>
    ensures { (path : PathView) → write_seen result ≡ (after_step path step.now).write }
{
    match step {
        StatementStep::Write(writing) => match writing.change {
            Change::Shared(v, value) => Some((v, value)),
            _ => None,
        },
        StatementStep::Next => None,
        StatementStep::To(_) => None,
    }
}

impl Decision {
    /// What the path answers that does what was decided.
    pub fn answer(&self) -> BlockAnswer
        ensures { (path : PathView) (moves : List Move)
            → effect_told result moves (path_after path (effect_of_decision path self.now moves))
            ≡ effect_of_decision path self.now moves }
    {
        match self {
            Decision::Stops(stop) => answer_of_stop(*stop),
            Decision::Words(turn) => answer_of_words(turn),
            Decision::Macro { .. } => BlockAnswer::Done(None),
            Decision::Statement(step) => BlockAnswer::Done(shared_write(step)),
        }
    }
}

/// The program that a block of words calls as a macro, if it calls one, and how many times it runs.
#[tactic(auto, using(crate::proofs::Decided::called))]
pub(crate) fn macro_call(words: &FlowWords, control: Control) -> Option<(u16, u16)>
    requires { control ≡ control_of_words words.now.dialect words.now.words }
    ensures some { IfSome result
        (λ call. (words.now.purpose ≡ MacroCall) × (control ≡ Control.Call call.0 call.1)) }
    ensures none { IsNone result → is_macro words.now.purpose ≡ false }
{
    match (words.purpose, control) {
        (Purpose::MacroCall, Control::Call { program, repeats }) => Some((program, repeats)),
        _ => None,
    }
}

impl PathState {
    /// What decides the meaning of the words of a block.
    fn sense_of(&self, words: &FlowWords) -> Sense
        requires { is_macro words.now.purpose ≡ false }
        ensures { sense_seen result ≡ sense_of self.now words.now.purpose words.now.dialect.system words.now.words }
    {
        Sense {
            purpose: words.purpose,
            arc: self.is_arc_behind(words),
            setting: words.gives_setting(),
        }
    }

    /// Whether the motion code in force behind the codes of a block is that of an arc.
    fn is_arc_behind(&self, words: &FlowWords) -> bool
        ensures { result ≡ is_arc (motion_after self.now.modal (rows words.now.dialect.system words.now.words)) }
    {
        self.modal.motion_after(words.rows.as_slice()).is_arc()
    }

    /// What the words of a block say, or the need or the alarm at which their evaluation stopped.
    #[tactic(auto, using(crate::proofs::Decided::words_said))]
    fn values_said(&self, words: &FlowWords, reads: &[Var]) -> Result<Values, Stop>
        requires { is_macro words.now.purpose ≡ false }
        ensures within { IfOk result AreLengthsSaid }
        ensures said { (tape : List ControlProgram) (control : Control)
            → words_effect tape self.now.fixed self.now words.now.purpose words.now.dialect.system words.now.words
            control reads.now ≡ of_said tape self.now words.now.dialect.system words.now.words control result }
    {
        let sense = self.sense_of(words);
        words_taken(words.words.as_slice(), &sense, self, reads).0
    }

    /// The arguments of a macro call, or the need or the alarm at which their evaluation stopped.
    fn arguments_said(&self, words: &FlowWords, reads: &[Var]) -> Result<[Var; LOCALS], Stop>
        ensures { (tape : List ControlProgram) (control : Control)
            → macro_effect tape self.now.fixed self.now words.now.words control reads.now
            ≡ of_arguments_said tape self.now control result }
    {
        let mut arguments = [Var::Vacant; LOCALS];
        let (taken, _) = arguments_taken(words.words.as_slice(), self, &mut arguments, reads);
        match taken {
            Ok(()) => Ok(arguments),
            Err(stop) => Err(stop),
        }
    }

    /// What a block comes to that calls a macro: the arguments of the call, or the need or the
    /// alarm at which it stopped. Nothing moves.
    #[inline(never)]
    pub(crate) fn decide_macro(
        &self,
        order: &BlockOrder,
        words: &FlowWords,
        program: u16,
        repeats: u16,
        reads: &[Var],
    ) -> Result<[Var; LOCALS], Stop>
        ensures { macro_decided self.now program repeats result ≡ macro_effect order.now self.now.fixed self.now
            words.now.words (Control.Call program repeats) reads.now }
    {
        match self.arguments_said(words, reads) {
            Ok(arguments) => self.decide_call(order, program, repeats, arguments),
            Err(stop) => Err(stop),
        }
    }

    /// What a macro call comes to whose arguments are known: these, or the alarm of the call.
    fn decide_call(
        &self,
        order: &BlockOrder,
        program: u16,
        repeats: u16,
        arguments: [Var; LOCALS],
    ) -> Result<[Var; LOCALS], Stop>
        ensures { macro_decided self.now program repeats result ≡ effect_of_control order.now
            (record { path = self.now; moves = [] }) (Some arguments) (Control.Call program repeats) }
    {
        let call = Control::Call { program, repeats };
        match self.standing().route(order, call) {
            Ok(_) => Ok(arguments),
            Err(cause) => Err(Stop::of(cause)),
        }
    }

    /// What a block of words comes to that calls no macro; its moves are put into the list. At a
    /// wait nothing is done.
    #[tactic(auto, using(crate::proofs::Decided::unwaiting))]
    pub(crate) fn decide_words(
        &self,
        order: &BlockOrder,
        words: &FlowWords,
        control: Control,
        reads: &[Var],
        moves: &mut MoveList,
    ) -> WordsTurn
        requires calls { is_macro words.now.purpose ≡ false }
        requires empty { moves.old ≡ [] }
        ensures fit { IsFitTurn result }
        ensures decided { words_decided self.now result moves.new ≡ block_of_words order.now self.now.fixed self.now
            words.now.purpose words.now.dialect.system words.now.words control reads.now }
        ensures moves { AreFitMoves moves.new }
        ensures told { (path : PathView) → moves_of (words_decided path result moves.new) ≡ moves.new }
    {
        if let Control::Wait(code) = control {
            return WordsTurn::AtWait(code);
        }
        match self.values_said(words, reads) {
            Ok(values) => self.decide_acted(order, words, &values, control, moves),
            Err(stop) => WordsTurn::Stops(stop),
        }
    }

    /// What a block comes to whose words say these values; its moves are put into the list.
    fn decide_acted(
        &self,
        order: &BlockOrder,
        words: &FlowWords,
        values: &Values,
        control: Control,
        moves: &mut MoveList,
    ) -> WordsTurn
        requires lengths { AreLengthsSaid values.now }
        requires empty { moves.old ≡ [] }
        ensures fit { IsFitTurn result }
        ensures decided { words_decided self.now result moves.new
            ≡ of_moved order.now control
            (effect_of_words self.now.fixed self.now words.now.dialect.system words.now.words
            (values_seen values.now)) }
        ensures moves { AreFitMoves moves.new }
        ensures told { (path : PathView) → moves_of (words_decided path result moves.new) ≡ moves.new }
    {
        match self.words_step(words, values, moves) {
            Ok(step) => self.decide_control(order, step, control, moves),
            Err(number) => WordsTurn::Stops(Stop::fault(number)),
        }
    }

    /// What a block comes to whose words do this, by where control goes; at an end it stays. If
    /// control leads nowhere, the block raises an alarm and the moves are dropped.
    #[tactic(auto, using(crate::proofs::Decided::goes))]
    fn decide_control(
        &self,
        order: &BlockOrder,
        step: WordsStep,
        control: Control,
        moves: &mut MoveList,
    ) -> WordsTurn
        requires fit { IsFit step }
        requires moves { AreFitMoves moves.old }
        ensures fit { IsFitTurn result }
        ensures decided { words_decided self.now result moves.new
            ≡ effect_of_control order.now
            (record { path = behind_words self.now step; moves = moves.old }) None control }
        ensures moves { AreFitMoves moves.new }
        ensures told { (path : PathView) → moves_of (words_decided path result moves.new) ≡ moves.new }
    {
        match control {
            Control::End => WordsTurn::AtEnd(step),
            _ => match self.standing().route(order, control) {
                Ok(route) => WordsTurn::Goes(step, route),
                Err(cause) => {
                    moves.clear();
                    WordsTurn::Stops(Stop::of(cause))
                }
            },
        }
    }

    /// What a block of the path comes to; its moves are put into the list.
    fn decide_block(
        &self,
        order: &BlockOrder,
        block: &FlowBlock,
        reads: &[Var],
        moves: &mut MoveList,
    ) -> Decision
        requires empty { moves.old ≡ [] }
        ensures fit { HasFitWords result }
        ensures decided { effect_of_decision self.now result moves.new
            ≡ effect_of_body order.now self.now.fixed self.now block.now.body block.now.control reads.now }
        ensures moves { AreFitMoves moves.new }
        ensures told { (path : PathView) → moves_of (effect_of_decision path result moves.new) ≡ moves.new }
    {
        match &block.body {
            FlowBody::Words(words) => match macro_call(words, block.control) {
                Some((program, repeats)) => {
                    match self.decide_macro(order, words, program, repeats, reads) {
                        Ok(arguments) => Decision::Macro {
                            program,
                            repeats,
                            arguments,
                        },
                        Err(stop) => Decision::Stops(stop),
                    }
                }
                None => Decision::Words(self.decide_words(
                    order,
                    words,
                    block.control,
                    reads,
                    moves,
                )),
            },
            FlowBody::Statement(statement) => match self.statement_step(order, statement, reads) {
                Ok(step) => Decision::Statement(step),
                Err(stop) => Decision::Stops(stop),
            },
        }
    }

    /// The block at which the path stands; none past the last block of its program.
    pub(crate) fn block<'a>(&self, flow: &'a Flow) -> Option<&'a FlowBlock>
        ensures value { option_copied result ≡ block_at flow.now.programs self.now.place }
        ensures next { IsSome result → MayPass self.now.place }
    {
        blocks_have_next(&flow.order);
        let running = self.standing().place().running();
        flow.block(running.program, running.block)
    }

    /// What the block at which the path stands comes to, with these values of shared variables that
    /// were read for it so far. The path does not change; the moves of the block are put into the
    /// list, which is cleared first.
    #[tactic(auto, using(crate::proofs::Decided::may_take))]
    pub fn decide(&self, flow: &Flow, reads: &[Var], moves: &mut MoveList) -> Decision
        ensures decided { effect_of_decision self.now result moves.new ≡ effect_of flow.now self.now reads.now }
        ensures fit { HasFitWords result }
        ensures may { MayTake self.now result }
        ensures moves { AreFitMoves moves.new }
        ensures told { (path : PathView) → moves_of (effect_of_decision path result moves.new) ≡ moves.new }
    {
        moves.clear();
        match self.block(flow) {
            Some(block) => self.decide_block(&flow.order, block, reads, moves),
            None => Decision::Stops(Stop::of(Cause::RanOff)),
        }
    }
}
