//! What a path answers to the turn of its block: with the moves of the block in it, or with these
//! apart, in a list that was lent. Tests take `Advance`.
ghost use Rattle.std.specs.Prelude.{◌≡◌};
ghost use Rattle.path_state.specs.Advances.{effect_told, effect_seen, StaysUnlessTold, StaysUnlessDone, AreFitMoves, AreMovesAt};
ghost use Rattle.path_state.specs.View.{PathView};

use nc_moves::Moves;
use nc_number::{Value, Var};

/// What a path answers to the turn of its block, with the moves in it.
#[derive(Debug, Drop)]
pub enum Advance {
    /// This shared variable must be read next; nothing changed.
    Need(u32),
    /// The block is done. What it wrote to a shared variable, and its moves.
    Effect {
        write: Option<(u32, Var)>,
        moves: Moves,
    },
    /// The path stands at a wait of this code; nothing changed.
    AtWait(u16),
    /// The path is at its end, where it stays; the moves of the last block.
    AtEnd {
        moves: Moves,
    },
    /// An alarm, and its value, which is 0 but for that of `#3000=`; nothing changed.
    Alarm {
        cause: u8,
        value: Value,
    },
}

/// What a path answers to the turn of its block, the moves apart, in a list that was lent.
#[derive(Debug, Drop)]
pub enum BlockAnswer {
    /// This shared variable must be read next; nothing changed.
    Need(u32),
    /// The block is done, and this it wrote to a shared variable.
    Done(Option<(u32, Var)>),
    /// The path stands at a wait of this code; nothing changed.
    AtWait(u16),
    /// The path is at its end, where it stays.
    AtEnd,
    /// An alarm, and its value, which is 0 but for that of `#3000=`; nothing changed.
    Alarm { cause: u8, value: Value },
}

impl Advance {
    /// The answer with the moves of its block in it; an answer of no moves drops them.
    pub(crate) fn of(answer: BlockAnswer, moves: Moves) -> Advance
        ensures effect { (after : PathView) → effect_seen result after ≡ effect_told answer moves.list after }
        ensures stays { (before after : PathView) → StaysUnlessTold answer before after
            → StaysUnlessDone result before after }
        ensures moves { AreFitMoves moves.list → AreMovesAt moves.line result }
    {
        match answer {
            BlockAnswer::Need(variable) => Advance::Need(variable),
            BlockAnswer::Done(write) => Advance::Effect { write, moves },
            BlockAnswer::AtWait(code) => Advance::AtWait(code),
            BlockAnswer::AtEnd => Advance::AtEnd { moves },
            BlockAnswer::Alarm { cause, value } => Advance::Alarm { cause, value },
        }
    }
}
