//! What the words of a block do to its path: codes, F, S and T, motion and all moves. Nothing
//! changes here: decision.rt asks for it, and taking.rt makes the change.
//! For this crate alone; where control goes is in route.rt.
ghost use Rattle.std.specs.Prelude.{◌≡◌, ◌≤◌, [], Ok, IfOk, OnErr, IfSome, length, codes};
ghost use Rattle.nc_number.specs.Position.{IsPosition};
ghost use Rattle.motion_track.specs.Within.{AreMovesWithin};
ghost use Rattle.path_state.specs.Effect.{effect_of_words, moved_by};
ghost use Rattle.block_words.specs.Codes.{one_shot};
ghost use Rattle.block_words.specs.Words.{has};
ghost use Rattle.block_values.specs.Motion.{motion_kind, motion_of};
ghost use Rattle.block_values.specs.Drawn.{step_motion, step_seen};
ghost use Rattle.path_state.specs.Decisions.{moved_seen};
ghost use Rattle.path_state.specs.Advances.{AreFitMoves};
ghost use Rattle.path_state.specs.Fits.{IsFit};
ghost use Rattle.block_values.specs.Seen.{values_seen};
ghost use Rattle.block_values.specs.Within.{AreLengthsSaid};

use crate::path::PathState;
use crate::words_step::WordsStep;
use block_forms::FlowWords;
use block_values::{MotionStep, Values, last_end, modal_after, motion_behind, moves_behind};
use modal_state::Modal;
use motion_track::LONGEST;
use nc_moves::MoveList;

impl PathState {
    /// The motion of a block of these words. `modal` is in force behind its codes and words. Its
    /// moves are put into the list, which is empty.
    fn motion(
        &self,
        modal: &Modal,
        words: &FlowWords,
        values: &Values,
        moves: &mut MoveList,
    ) -> Result<MotionStep, u8>
        requires lengths { AreLengthsSaid values.now }
        requires empty { moves.old ≡ [] }
        ensures motion { step_seen result moves.new ≡ motion_of self.now.fixed.home self.now.position self.now.offsets
            modal.now (motion_kind modal.now (one_shot words.now.dialect.system words.now.words))
            (has (codes "L") words.now.words) (values_seen values.now) }
        ensures few { length moves.new ≤ 4 }
        ensures within { AreMovesWithin LONGEST moves.new }
        ensures cycle { IfOk result (λ step. IfSome step.cycle IsPosition) }
        ensures offset { IfOk result (λ step. IfSome step.offset (λ set. IsPosition set.1)) }
    {
        motion_behind(
            self.position,
            self.fixed.home,
            modal,
            &self.offsets,
            words,
            values,
            moves,
        )
    }

    /// What the words of a block do: its codes are taken, then F, S and T, then its motion. The
    /// path does not change; the moves are put into the list.
    ///
    /// Alarms, as their numbers: 40 of T; 40 and 41 of the setting of an offset; 41, 43, 42, 44 and
    /// 56 of the motion.
    pub(crate) fn words_step(
        &self,
        words: &FlowWords,
        values: &Values,
        moves: &mut MoveList,
    ) -> Result<WordsStep, u8>
        requires lengths { AreLengthsSaid values.now }
        ensures fit { IfOk result IsFit }
        ensures acted { moved_seen self.now result moves.new
            ≡ effect_of_words self.now.fixed self.now words.now.dialect.system
            words.now.words (values_seen values.now) }
        ensures moves { AreFitMoves moves.old → AreFitMoves moves.new }
        ensures still { OnErr result (moves.new ≡ moves.old) }
    {
        let modal = match modal_after(&self.modal, words, values) {
            Ok(modal) => modal,
            Err(number) => return Err(number),
        };
        let mut motion = MoveList::empty();
        match self.motion(&modal, words, values, &mut motion) {
            Ok(step) => Ok(self.step_of(modal, step, &motion, words, values, moves)),
            Err(number) => Err(number),
        }
    }

    /// What the words of a block do whose motion is known; all its moves are put into the list.
    fn step_of(
        &self,
        modal: Modal,
        step: MotionStep,
        motion: &MoveList,
        words: &FlowWords,
        values: &Values,
        moves: &mut MoveList,
    ) -> WordsStep
        requires few { length motion.now ≤ 4 }
        requires within { AreMovesWithin LONGEST motion.now }
        requires cycle { IfSome step.cycle IsPosition }
        requires offset { IfSome step.offset (λ set. IsPosition set.1) }
        ensures fit { IsFit result }
        ensures moved { moved_seen self.now (Ok result) moves.new ≡ Ok (moved_by self.now modal
            words.now.dialect.system words.now.words (values_seen values.now) (step_motion step motion.now)) }
        ensures moves { AreFitMoves moves.new }
    {
        moves_behind(words, values, &modal, motion, moves);
        let position = last_end(self.position, moves.as_slice());
        let mut after = modal;
        after.set_cycle(step.cycle);
        WordsStep {
            modal: after,
            offset: step.offset,
            position,
        }
    }
}
