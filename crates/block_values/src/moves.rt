//! All moves that a block asks of its turret, in their order, and where the turret stands behind
//! them. Tests call `all_moves`.
ghost use Rattle.std.specs.Prelude.{Option, ◌≡◌, ◌≤◌, ◌<◌, ◌+◌, ◌++◌, length};
ghost use Rattle.nc_number.specs.declared.value.Var.TheVariants.{Vacant};
ghost use Rattle.nc_number.specs.Arithmetic.{whole_of};
ghost use Rattle.nc_number.specs.Position.{IsPosition};
ghost use Rattle.motion_track.specs.Within.{AreMovesWithin};
ghost use Rattle.nc_moves.specs.declared.motion.Move.{Move};
ghost use Rattle.block_values.specs.Values.{Values};
ghost use Rattle.block_words.specs.Codes.{gives, is_limit, m_code};
ghost use Rattle.block_values.specs.Seen.{values_seen};
ghost use Rattle.block_values.specs.Moves.{whole_or_zero, speed_moves, tool_moves, auxiliary_moves, is_auxiliary, all_moves, last_end};
ghost use Rattle.block_values.specs.InForce.{settings_said};

use crate::values::Values;
use block_forms::FlowWords;
use modal_state::Modal;
use motion_track::LONGEST;
use nc_moves::{Move, MoveList};
use nc_number::{Point, Value, Var};

/// Puts all moves of a block of these words into the list: what [`all_moves`] makes of them. What
/// the list held before is gone.
#[tactic(auto, using(crate::proofs::Hanging::moves_hang))]
pub fn moves_behind(
    words: &FlowWords,
    values: &Values,
    modal: &Modal,
    motion: &MoveList,
    moves: &mut MoveList,
)
    requires { length motion.now ≤ 4 }
    ensures moves { moves.new ≡ all_moves (gives words.now.dialect.system is_limit words.now.words) modal.now
        (values_seen values.now) motion.now (m_code words.now.words) }
    ensures few { length moves.new ≤ 7 }
    ensures within { AreMovesWithin LONGEST motion.now → AreMovesWithin LONGEST moves.new }
{
    put_moves(
        moves,
        words.gives_limit(),
        modal,
        values.speed,
        values.tool,
        motion,
        words.code(),
    );
}

/// All moves of a block: its highest speed (beside G50) or its speed, its tool, its motion, and its
/// auxiliary code. M02, M30, M98 and M99 are the control's own, and no moves.
pub fn all_moves(
    limits: bool,
    modal: &Modal,
    speed: Var,
    tool: Option<u16>,
    motion: &MoveList,
    code: Option<u32>,
) -> MoveList
    requires { length motion.now ≤ 4 }
    ensures moves { result ≡ all_moves limits modal.now (settings_said Vacant speed tool) motion.now code }
    ensures few { length result ≤ 7 }
    ensures within { AreMovesWithin LONGEST motion.now → AreMovesWithin LONGEST result }
{
    let mut moves = MoveList::empty();
    put_moves(&mut moves, limits, modal, speed, tool, motion, code);
    moves
}

/// Lets the list hold all moves of a block, and nothing that it held before.
fn put_moves(
    moves: &mut MoveList,
    limits: bool,
    modal: &Modal,
    speed: Var,
    tool: Option<u16>,
    motion: &MoveList,
    code: Option<u32>,
)
    requires { length motion.now ≤ 4 }
    ensures moves { moves.new ≡ all_moves limits modal.now (settings_said Vacant speed tool) motion.now code }
    ensures few { length moves.new ≤ 7 }
    ensures within { AreMovesWithin LONGEST motion.now → AreMovesWithin LONGEST moves.new }
{
    moves.clear();
    put_speed(moves, limits, modal, speed);
    put_tool(moves, tool);
    moves.append(motion.as_slice());
    put_auxiliary(moves, code);
}

/// Where the turret stands behind these moves, which begin at `at`: the end of the last one that
/// goes somewhere.
pub fn last_end(at: Point, moves: &[Move]) -> Point
    ensures last { result ≡ last_end at moves.now }
    ensures position { IsPosition at → AreMovesWithin LONGEST moves.now → IsPosition result }
{
    let mut end = at;
    for step in moves {
        end = step.end().unwrap_or(end);
    }
    end
}

/// Adds the move of S, if S is said: the highest speed beside G50, else the speed.
fn put_speed(moves: &mut MoveList, limits: bool, modal: &Modal, speed: Var)
    requires { length moves.old < 8 }
    ensures moves { moves.new ≡ moves.old ++ speed_moves limits modal.now speed }
    ensures few { length moves.new ≤ length moves.old + 1 }
{
    if let Var::Is(s) = speed {
        let s = whole_or_zero(&s);
        moves.push(if limits {
            Move::Limit { s }
        } else {
            Move::Speed {
                surface: modal.is_surface_speed(),
                s,
            }
        });
    }
}

/// The whole number of a speed. One with a fraction counts 0, but words out of range never come
/// here.
fn whole_or_zero(speed: &Value) -> u32
    ensures { result ≡ whole_or_zero (whole_of speed.now) }
{
    match speed.whole() {
        Some(n) => n.unsigned_abs() as u32,
        None => 0,
    }
}

/// Adds the tool that the block says, if it says one.
fn put_tool(moves: &mut MoveList, tool: Option<u16>)
    requires { length moves.old < 8 }
    ensures moves { moves.new ≡ moves.old ++ tool_moves tool }
    ensures few { length moves.new ≤ length moves.old + 1 }
{
    if let Some(t) = tool {
        moves.push(Move::Tool { t });
    }
}

/// Adds the M code, if the machine gets it.
fn put_auxiliary(moves: &mut MoveList, code: Option<u32>)
    requires { length moves.old < 8 }
    ensures moves { moves.new ≡ moves.old ++ auxiliary_moves code }
    ensures few { length moves.new ≤ length moves.old + 1 }
{
    if let Some(m) = code
        && is_auxiliary(m)
    {
        moves.push(Move::Aux { m: m as u16 });
    }
}

/// Whether the machine gets this M code: it is at most 999, and none of M02, M30, M98 and M99,
/// which the control does itself.
fn is_auxiliary(m: u32) -> bool
    ensures { result ≡ is_auxiliary m }
{
    m <= 999 && !matches!(m, 2 | 30 | 98 | 99)
}
