//! What a turn of a path answers: with its moves in it, or with these apart, in a list that was
//! lent. A new variant is a row in specs/Turns and Made here, and in the specs of the crates above
//! that tell of turns.
ghost use Rattle.std.specs.Prelude.{◌≡◌};
ghost use Rattle.two_path.specs.Made.{turn_with};

use nc_moves::{Alarm, MoveList, Moves};
use run_records::Entry;

/// What one turn of a path came to.
#[derive(Debug, Drop)]
pub enum Turn {
    /// Its block read this shared variable, when there were so many records.
    Read { variable: u32, stamp: u32 },
    /// It did its block.
    Did { moves: Moves },
    /// It arrived at a wait, and waits there.
    Arrived { code: u16 },
    /// It met the other path at a wait, and both go on.
    Met { code: u16 },
    /// It ended.
    Ended { moves: Moves },
    /// It waits already. Nothing happens.
    Waiting { code: u16 },
    /// It has ended already. Nothing happens.
    Finished,
    /// It raised this alarm, which stops both paths.
    Alarm { alarm: Alarm },
    /// An alarm has stopped both paths. Nothing happens.
    Halted { alarm: Alarm },
    /// No turn of a block: an operator's edit was done again.
    Edited,
}

/// A turn, and its record if it makes one.
#[derive(Debug, Drop)]
pub struct Turned {
    /// What the turn came to, with its moves in it.
    pub turn: Turn,
    /// The record of the turn, if it makes one.
    pub entry: Option<Entry>,
}

/// What one turn of a path came to, its moves apart. Those of `Did` and `Ended` are of the block at
/// their line; the others have none.
#[derive(Debug, Drop)]
pub enum TurnAnswer {
    /// Its block read this shared variable, when there were so many records.
    Read { variable: u32, stamp: u32 },
    /// It did its block.
    Did { line: u32 },
    /// It arrived at a wait, and waits there.
    Arrived { code: u16 },
    /// It met the other path at a wait, and both go on.
    Met { code: u16 },
    /// It ended.
    Ended { line: u32 },
    /// It waits already. Nothing happens.
    Waiting { code: u16 },
    /// It has ended already. Nothing happens.
    Finished,
    /// It raised this alarm, which stops both paths.
    Alarm { alarm: Alarm },
    /// An alarm has stopped both paths. Nothing happens.
    Halted { alarm: Alarm },
    /// No turn of a block: an operator's edit was done again.
    Edited,
}

/// A turn whose moves are apart, and its record if it makes one.
#[derive(Debug, Drop)]
pub struct Answered {
    /// What the turn came to, its moves apart.
    pub answer: TurnAnswer,
    /// The record of the turn, if it makes one.
    pub entry: Option<Entry>,
}

impl Turn {
    /// The turn with its moves in it; a turn that has none drops them.
    pub fn of(answer: TurnAnswer, list: MoveList) -> Turn
        ensures { result ≡ turn_with answer list }
    {
        match answer {
            TurnAnswer::Read { variable, stamp } => Turn::Read { variable, stamp },
            TurnAnswer::Did { line } => Turn::Did {
                moves: Moves { line, list },
            },
            TurnAnswer::Arrived { code } => Turn::Arrived { code },
            TurnAnswer::Met { code } => Turn::Met { code },
            TurnAnswer::Ended { line } => Turn::Ended {
                moves: Moves { line, list },
            },
            TurnAnswer::Waiting { code } => Turn::Waiting { code },
            TurnAnswer::Finished => Turn::Finished,
            TurnAnswer::Alarm { alarm } => Turn::Alarm { alarm },
            TurnAnswer::Halted { alarm } => Turn::Halted { alarm },
            TurnAnswer::Edited => Turn::Edited,
        }
    }
}
