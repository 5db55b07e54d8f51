//! What a block asks a turret to do, and the moves of one block, at most eight. Turrets, reports,
//! traces and zones take them.
ghost use Rattle.std.specs.Prelude.{◌≡◌, ◌+◌, ◌<◌, ◌≤◌, [], ◌∷◌, ◌++◌, length};
ghost use Rattle.nc_moves.specs.Motion.{end_of};

use arrayvec::ArrayVec;
use nc_number::{Point, Value};
use std::marker::Model;

/// How many moves one block can have at most. Contracts say it as 8, here and in crates above.
pub const MOVES_PER_BLOCK: usize = 8;

/// Where the centre of an arc lies.
#[derive(Clone, Copy, Debug, PartialEq, Eq)]
pub enum Centre {
    /// From the arc's start, as radius values in 0.001 mm: `i` along X, `k` along Z.
    Offset { i: i64, k: i64 },
    /// By the arc's radius in 0.001 mm.
    Radius { r: i64 },
}

/// One thing that a turret is to do. Points are in machine coordinates.
#[derive(Clone, Copy, Debug, PartialEq, Eq)]
pub enum Move {
    /// A straight move at rapid traverse.
    Rapid {
        to: Point,
    },
    /// A straight cut. The feed is in mm per revolution if `per_rev`, else in mm per minute.
    Feed {
        to: Point,
        feed: Value,
        per_rev: bool,
    },
    /// A straight thread, with its lead in mm per revolution.
    Thread {
        to: Point,
        lead: Value,
    },
    /// A cut along a circle. The feed is in mm per revolution if `per_rev`, else in mm per minute.
    Arc {
        clockwise: bool,
        to: Point,
        centre: Centre,
        feed: Value,
        per_rev: bool,
    },
    /// A rest, in milliseconds.
    Dwell {
        ms: u64,
    },
    /// The spindle's speed: in metres per minute at the surface if `surface`, else in revolutions
    /// per minute.
    Speed {
        surface: bool,
        s: u32,
    },
    /// The spindle's highest speed, in revolutions per minute.
    Limit {
        s: u32,
    },
    /// The tool and its offset, as the T word has them.
    Tool {
        t: u16,
    },
    /// An auxiliary code, by the number after M.
    Aux {
        m: u16,
    },
}

impl Move {
    /// Where the turret stands after the move, in machine coordinates. None if the move goes
    /// nowhere: a rest, a speed, a limit, a tool, an auxiliary code.
    pub fn end(&self) -> Option<Point>
        ensures { result ≡ end_of self.now }
    {
        match *self {
            Move::Rapid { to } => Some(to),
            Move::Feed { to, .. } => Some(to),
            Move::Thread { to, .. } => Some(to),
            Move::Arc { to, .. } => Some(to),
            Move::Dwell { .. } => None,
            Move::Speed { .. } => None,
            Move::Limit { .. } => None,
            Move::Tool { .. } => None,
            Move::Aux { .. } => None,
        }
    }
}

/// What lies in the unused places of a `MoveList`: a rest of no time.
impl Default for Move {
    ghost use Rattle.std.specs.Prelude.{◌≡◌};
    ghost use Rattle.nc_moves.specs.declared.motion.Move.TheVariants.{Dwell};

    ghost is_default = { λ blank. blank ≡ Dwell 0 };

    fn default() -> Self {
        Move::Dwell { ms: 0 }
    }
}

/// The moves of a block in order, at most eight. It takes no memory.
#[derive(Debug, Drop)]
pub struct MoveList {
    /// The moves, in order.
    moves: ArrayVec<Move, MOVES_PER_BLOCK>,
}

impl Model for MoveList {
    ghost use Rattle.std.specs.Prelude.{List};
    ghost use Rattle.nc_moves.specs.declared.motion.Move.{Move};

    ghost Value = { List Move };

    ghost view = { λ l. l.moves.items };
}

impl MoveList {
    /// A list without a move.
    pub fn empty() -> Self
        ensures { result ≡ [] }
    {
        MoveList {
            moves: ArrayVec::new(),
        }
    }

    /// The moves, in order.
    pub fn as_slice(&self) -> &[Move]
        ensures moves { result.now ≡ self.now }
        ensures fits { length self.now ≤ 8 }
    {
        self.moves.as_slice()
    }

    /// Takes all moves out.
    pub fn clear(&mut self)
        ensures { self.new ≡ [] }
    {
        self.moves.clear();
    }

    /// Adds a move after the others.
    pub fn push(&mut self, what: Move)
        requires { length self.old < 8 }
        ensures { self.new ≡ self.old ++ what ∷ [] }
    {
        self.moves.push(what);
    }

    /// Adds moves after the others, in their order. The list must have room for all of them.
    pub fn append(&mut self, more: &[Move])
        requires { length self.old + length more.now ≤ 8 }
        ensures { self.new ≡ self.old ++ more.now }
    {
        self.moves.try_extend_from_slice(more).unwrap();
    }

    /// A second list of these moves.
    pub fn copy(&self) -> Self
        ensures { result ≡ self.now }
    {
        let mut same = MoveList::empty();
        same.append(self.as_slice());
        same
    }
}

/// The moves of the block at a line of the tape.
#[derive(Debug, Drop)]
pub struct Moves {
    /// The line of the block in the tape, counted from 1.
    pub line: u32,
    /// The moves of the block.
    pub list: MoveList,
}

impl Moves {
    /// A second list of these moves, with their line.
    pub fn copy(&self) -> Self
        ensures { result ≡ self.now }
    {
        Moves {
            line: self.line,
            list: self.list.copy(),
        }
    }
}
