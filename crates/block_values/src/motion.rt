//! The motion of a block: its moves, where a cycle ends, the offset that G10 sets. It goes by the
//! block's one-shot code if it has one, else by the motion code in force. Tests call `motion_of`.
ghost use Rattle.std.specs.Prelude.{ℕ, ◌≡◌, ◌≤◌, ◌∷◌, [], codes, length, None, IfOk, IfSome, unsigned_abs};
ghost use Rattle.nc_number.specs.Axes.{IsAxisWithin};
ghost use Rattle.nc_number.specs.Position.{IsPosition};
ghost use Rattle.nc_moves.specs.declared.motion.Move.TheVariants.{Dwell};
ghost use Rattle.motion_track.specs.Block.{IsBlockWithin};
ghost use Rattle.motion_track.specs.Within.{AreMovesWithin};
ghost use Rattle.turn_cycles.specs.Pass.{cycle_kind_of};
ghost use Rattle.block_words.specs.Codes.{one_shot};
ghost use Rattle.block_words.specs.Words.{has};
ghost use Rattle.block_values.specs.Seen.{values_seen};
ghost use Rattle.block_values.specs.Within.{longest_said, AreLengthsSaid};
ghost use Rattle.block_values.specs.Motion.{motion_kind, axis_under, form_of, setting_of, block_motion, cut_motion, motion_of};
ghost use Rattle.block_values.specs.Drawn.{drawn_motion, step_seen, motion_said, motion_part, AreLengthsWithin};
ghost use Rattle.block_values.specs.Values.{Values};
ghost use Rattle.code_tables.specs.declared.kind.CodeKind.{CodeKind};

use crate::values::Values;
use block_forms::FlowWords;
use code_tables::CodeKind;
use modal_state::Modal;
use motion_track::{BlockMotion, LONGEST, MotionFault, track};
use nc_moves::{Move, MoveList};
use nc_number::{Axis, Cause, Point};
use offset_store::{OffsetFault, OffsetForm, Offsets, Slot};
use turn_cycles::{CycleKind, cycle_pass};

/// What the words of a block say to its motion. Lengths are in 0.001 mm: X and U count on the
/// diameter, I and R on the radius.
#[derive(Clone, Copy, Debug, PartialEq, Eq)]
pub struct MotionWords {
    /// X: where the axis goes to; under G91 how far it goes. In G10 the offset's part along X.
    pub x: Option<i64>,
    /// Z: where the axis goes to; under G91 how far it goes. In G10 the offset's part along Z.
    pub z: Option<i64>,
    /// U: how far the axis goes along X; in G10 what is added to the offset's part.
    pub u: Option<i64>,
    /// W: how far the axis goes along Z; in G10 what is added to the offset's part.
    pub w: Option<i64>,
    /// I: from the start of an arc to its centre along X.
    pub i: Option<i64>,
    /// K: from the start of an arc to its centre along Z.
    pub k: Option<i64>,
    /// R: the radius of an arc, which counts before I and K. No other motion heeds it.
    pub r: Option<i64>,
    /// P of the setting of an offset (G10): the number of the offset.
    pub number: Option<i64>,
    /// How long a dwell (G04) is, in milliseconds; 0 if no word says it.
    pub rest: u64,
}

impl MotionWords {
    /// What the motion of a block takes of its words.
    pub fn of(values: &Values) -> MotionWords
        requires { AreLengthsSaid values.now }
        ensures words { result ≡ motion_part (values_seen values.now) }
        ensures lengths { AreLengthsWithin longest_said result }
    {
        MotionWords {
            x: values.x,
            z: values.z,
            u: values.u,
            w: values.w,
            i: values.i,
            k: values.k,
            r: values.r,
            number: values.number,
            rest: values.rest.unwrap_or(0),
        }
    }
}

/// What the motion of a block comes to.
#[derive(Debug, Drop)]
pub struct Motion {
    /// The moves, in their order.
    pub moves: MoveList,
    /// Where the cycle in force ends from then on, in machine coordinates.
    pub cycle: Option<Point>,
    /// The offset that G10 sets, and its new value.
    pub offset: Option<(Slot, Point)>,
}

/// What the motion of a block comes to but for its moves, which stand in a list that was lent.
#[derive(Debug, Drop)]
pub struct MotionStep {
    /// Where the cycle in force ends from then on, in machine coordinates.
    pub cycle: Option<Point>,
    /// The offset that G10 sets, and its new value.
    pub offset: Option<(Slot, Point)>,
}

/// The motion of a block of these words. `modal` is in force behind its codes and words. It goes by
/// the block's one-shot code if it has one, else by the motion code in force. Its moves are put
/// into the list, which is empty.
///
/// Alarms: those of [`motion_of`].
#[tactic(auto, using(crate::proofs::Hanging::motion_hangs))]
pub fn motion_behind(
    position: Point,
    home: Point,
    modal: &Modal,
    offsets: &Offsets,
    words: &FlowWords,
    values: &Values,
    moves: &mut MoveList,
) -> Result<MotionStep, u8>
    requires position { IsPosition position }
    requires home { IsPosition home }
    requires lengths { AreLengthsSaid values.now }
    requires empty { moves.old ≡ [] }
    ensures motion { step_seen result moves.new ≡ motion_of home position offsets.now modal.now
        (motion_kind modal.now (one_shot words.now.dialect.system words.now.words))
        (has (codes "L") words.now.words) (values_seen values.now) }
    ensures few { length moves.new ≤ 4 }
    ensures within { AreMovesWithin LONGEST moves.new }
    ensures cycle { IfOk result (λ step. IfSome step.cycle IsPosition) }
    ensures offset { IfOk result (λ step. IfSome step.offset (λ set. IsPosition set.1)) }
{
    let kind = words.one_shot.unwrap_or(modal.motion());
    motion_step(
        position,
        home,
        modal,
        offsets,
        kind,
        words.has_l(),
        &MotionWords::of(values),
        moves,
    )
}

/// The motion of a block by the kind of its code, from where the turret stands: a dwell, the
/// setting of an offset, a cycle, a line, an arc, a thread, a way home, or none.
///
/// Alarms, as their numbers: of G10 40 of an offset that does not exist; 41 of a target or an
/// offset past the range; 43 of an arc without I, K and R, 42 of one that ends off its circle; 44
/// of a cut, an arc, a thread or a cycle without a feed; 56 of G53 under G91, whatever words stand
/// beside it.
pub fn motion_of(
    position: Point,
    home: Point,
    modal: &Modal,
    offsets: &Offsets,
    kind: CodeKind,
    has_l: bool,
    words: &MotionWords,
) -> Result<Motion, u8>
    requires position { IsPosition position }
    requires lengths { AreLengthsWithin longest_said words.now }
    ensures motion { drawn_motion result
        ≡ motion_of home position offsets.now modal.now kind has_l (motion_said words.now) }
    ensures few { IfOk result (λ motion. length motion.moves ≤ 4) }
    ensures within { IsPosition home → IfOk result (λ motion. AreMovesWithin LONGEST motion.moves) }
    ensures cycle { IfOk result (λ motion. IfSome motion.cycle IsPosition) }
    ensures offset { IfOk result (λ motion. IfSome motion.offset (λ set. IsPosition set.1)) }
{
    let mut moves = MoveList::empty();
    match motion_step(
        position, home, modal, offsets, kind, has_l, words, &mut moves,
    ) {
        Ok(step) => Ok(Motion {
            moves,
            cycle: step.cycle,
            offset: step.offset,
        }),
        Err(number) => Err(number),
    }
}

/// What [`motion_of`] answers, with its moves put into the list, which is empty.
#[tactic(auto, using(crate::proofs::Ends::none_within))]
fn motion_step(
    position: Point,
    home: Point,
    modal: &Modal,
    offsets: &Offsets,
    kind: CodeKind,
    has_l: bool,
    words: &MotionWords,
    moves: &mut MoveList,
) -> Result<MotionStep, u8>
    requires position { IsPosition position }
    requires lengths { AreLengthsWithin longest_said words.now }
    requires empty { moves.old ≡ [] }
    ensures motion { step_seen result moves.new
        ≡ motion_of home position offsets.now modal.now kind has_l (motion_said words.now) }
    ensures few { length moves.new ≤ 4 }
    ensures within { IsPosition home → AreMovesWithin LONGEST moves.new }
    ensures cycle { IfOk result (λ step. IfSome step.cycle IsPosition) }
    ensures offset { IfOk result (λ step. IfSome step.offset (λ set. IsPosition set.1)) }
{
    match kind {
        CodeKind::Dwell => Ok(dwell(modal.cycle(), words.rest, moves)),
        CodeKind::Setting => match setting(offsets, modal, has_l, words) {
            Ok(set) => Ok(MotionStep {
                cycle: modal.cycle(),
                offset: Some(set),
            }),
            Err(fault) => Err(fault.number),
        },
        CodeKind::Machine if modal.is_incremental() => Err(Cause::UnknownCode.number()),
        _ => {
            let block = block_motion(position, home, modal, offsets, words);
            match cut_motion(kind, modal.cycle(), &block, moves) {
                Ok(step) => Ok(step),
                Err(fault) => Err(fault.number),
            }
        }
    }
}

/// A dwell: it puts this one move into the list, which is empty, and leaves the cycle's end.
#[tactic(auto, using(crate::proofs::Ends::dwell_within))]
fn dwell(cycle: Option<Point>, ms: u64, moves: &mut MoveList) -> MotionStep
    requires { moves.old ≡ [] }
    ensures moves { moves.new ≡ Dwell ms ∷ [] }
    ensures within { AreMovesWithin LONGEST moves.new }
    ensures step { result ≡ record { cycle = cycle; offset = None } }
{
    moves.push(Move::Dwell { ms });
    MotionStep {
        cycle,
        offset: None,
    }
}

/// What the two words of an axis say, the one of X or Z before the one of U or W: X and Z are
/// incremental if G91 is in force, as U and W always are.
fn axis_under(incremental: bool, word: Option<i64>, way: Option<i64>) -> Axis
    ensures told { result ≡ axis_under incremental word way }
    ensures range { (far : ℕ) → IfSome word (λ n. unsigned_abs n ≤ far)
        → IfSome way (λ n. unsigned_abs n ≤ far) → IsAxisWithin far result }
{
    if !incremental {
        return Axis::of(word, way);
    }
    match word {
        Some(length) => Axis::By(length),
        None => Axis::of(None, way),
    }
}

/// The offset that G10 sets, and its new value: with L a work offset, else a tool offset. An
/// absolute word sets it, and an incremental one adds to it. Alarm 40 exactly if P names none, then
/// 41 exactly if a part of the new value would be past 99,999.999 mm.
pub fn setting(
    offsets: &Offsets,
    modal: &Modal,
    has_l: bool,
    words: &MotionWords,
) -> Result<(Slot, Point), OffsetFault>
    ensures set { result ≡ setting_of offsets.now modal.now has_l (motion_said words.now) }
    ensures position { IfOk result (λ set. IsPosition set.1) }
{
    let slot = Slot::named(form_of(has_l), words.number)?;
    let to = offsets.changed(
        &slot,
        axis_under(modal.is_incremental(), words.x, words.u),
        axis_under(modal.is_incremental(), words.z, words.w),
    )?;
    Ok((slot, to))
}

/// Which kind of offset G10 sets: a work offset with L, else a tool offset.
fn form_of(has_l: bool) -> OffsetForm
    ensures { result ≡ form_of has_l }
{
    if has_l {
        OffsetForm::WorkOffset
    } else {
        OffsetForm::ToolOffset
    }
}

/// What the moves of the block depend on: its words, and the state of its path.
fn block_motion(
    position: Point,
    home: Point,
    modal: &Modal,
    offsets: &Offsets,
    words: &MotionWords,
) -> BlockMotion
    requires position { IsPosition position }
    requires lengths { AreLengthsWithin longest_said words.now }
    ensures block { result ≡ block_motion home position offsets.now modal.now (motion_said words.now) }
    ensures within { IsBlockWithin LONGEST result }
{
    BlockMotion {
        start: position,
        shift: offsets.shift(modal.work(), modal.offset()),
        home,
        x: axis_under(modal.is_incremental(), words.x, words.u),
        z: axis_under(modal.is_incremental(), words.z, words.w),
        i: words.i,
        k: words.k,
        r: words.r,
        feed: modal.feed().or_zero(),
        per_rev: modal.is_per_revolution(),
    }
}

/// A cycle, or a line, an arc, a thread or a way home, or no motion at all. Its moves are put into
/// the list, which is empty.
#[tactic(auto, using(crate::proofs::Ends::none_within))]
fn cut_motion(
    kind: CodeKind,
    kept: Option<Point>,
    block: &BlockMotion,
    moves: &mut MoveList,
) -> Result<MotionStep, MotionFault>
    requires kept { IfSome kept IsPosition }
    requires block { IsBlockWithin LONGEST block.now }
    requires empty { moves.old ≡ [] }
    ensures motion { step_seen result moves.new ≡ cut_motion (cycle_kind_of kind) kind kept block.now }
    ensures few { length moves.new ≤ 4 }
    ensures within { IsPosition block.now.start → IsPosition block.now.home → AreMovesWithin LONGEST moves.new }
    ensures cycle { IfOk result (λ step. IfSome step.cycle IsPosition) }
    ensures no_offset { IfOk result (λ step. step.offset ≡ None) }
{
    match CycleKind::of(kind) {
        Some(cycle) => {
            let pass = cycle_pass(cycle, kept, block)?;
            moves.append(pass.moves.as_slice());
            Ok(MotionStep {
                cycle: pass.kept,
                offset: None,
            })
        }
        None => {
            let tracked = track(kind, block)?;
            moves.append(tracked.as_slice());
            Ok(MotionStep {
                cycle: kept,
                offset: None,
            })
        }
    }
}
