//! A table in memory for the tests of seats. Its paths take strict turns, path 1 first, until each
//! has as many records as its goal. When a path waits is in specs/Waiting.antt.
//! paths.rt uses it.

ghost use Rattle.std.specs.Prelude.{◌≡◌, [], ◌∷◌, Some};
ghost use Rattle.nc_moves.specs.declared.motion.Move.TheVariants.{Aux};
ghost use Rattle.nc_outside.specs.Lined.{lined_moves, lined_move};
ghost use Rattle.lane_vectors.specs.Codes.{codes_told};
ghost use Rattle.seat_table.specs.Turning.{Answers, IsNoDrain};

use nc_moves::{Move, MoveList, Moves};
use nc_number::Path;
use nc_outside::{Halt, Next};
use seat_table::Turns;
use std::alloc::Global;
use std::sync::atomic::AtomicU64;
use std::sync::atomic::Ordering::SeqCst;
use std::thread;

/// The table: the codes of each path's records, and what the tests count.
#[derive(Drop)]
pub struct MemoryTable {
    /// The auxiliary codes of path 1's records.
    pub first: Vec<u16>,
    /// The auxiliary codes of path 2's records.
    pub second: Vec<u16>,
    /// How many records each path makes.
    pub goal: usize,
    /// How long a turn lasts, in yields.
    pub lasts: u32,
    /// How often a turn found its path waiting.
    pub looks: AtomicU64,
    /// How many drains it was told.
    pub drains: u64,
    /// Why the table was halted.
    pub halt: Option<Halt>,
}

impl MemoryTable {
    /// A table without records.
    pub fn new(alloc: Global, goal: usize, lasts: u32) -> MemoryTable
        ensures { (result.first.items ≡ []) × (result.second.items ≡ []) }
    {
        MemoryTable {
            first: Vec::new(alloc),
            second: Vec::new(alloc),
            goal,
            lasts,
            looks: AtomicU64::new(0),
            drains: 0,
            halt: None,
        }
    }
}

/// Lets other threads run, this many times.
pub fn yield_often(times: u32) {
    for _ in 0..times {
        thread::yield_now();
    }
}

/// The moves of a block with this auxiliary code.
fn block(m: u16) -> Moves
    ensures { lined_moves result ≡ lined_move 1 (Aux m) ∷ [] }
{
    let mut list = MoveList::empty();
    list.push(Move::Aux { m });
    Moves { line: 1, list }
}

/// One record more of a path, or its end if memory runs out.
fn make(records: &mut Vec<u16>) -> Next
    ensures undrained { IsNoDrain (Some result) }
    ensures made { Answers (codes_told records.old.items) result (codes_told records.new.items) }
{
    let m = (records.len() % 1000) as u16;
    if records.push(m).is_err() {
        return Next::Finished;
    }
    Next::Moves(block(m))
}

impl Turns for MemoryTable {
    ghost use Rattle.std.specs.Prelude.{false, is_none, length};
    ghost use Rattle.lane_vectors.specs.Codes.{told_of};
    ghost use Rattle.lane_vectors.specs.Waiting.{waits_at};
    ghost use Rattle.seat_table.specs.Turning.{Draining};

    ghost told = { λ t path. told_of path false t.first.items t.second.items };

    ghost reason = { λ t. t.halt };

    ghost waits = { λ t path. waits_at path (is_none t.halt) (length t.first.items) (length t.second.items) t.goal };

    ghost drains = { λ _ _. Draining.none };

    fn waits(&self, path: Path) -> bool {
        if self.halt.is_some() {
            return false;
        }
        match path {
            Path::One => self.second.len() < self.first.len(),
            Path::Two => self.second.len() < self.goal && self.first.len() <= self.second.len(),
        }
    }

    fn turn_step(&mut self, path: Path) -> Option<Next> {
        yield_often(self.lasts);
        if let Some(why) = self.halt {
            return Some(Next::Halted(why));
        }
        match path {
            Path::One => {
                if self.first.len() > self.second.len() {
                    self.looks.fetch_add(1, SeqCst);
                    return None;
                }
                if self.first.len() >= self.goal {
                    return Some(Next::Finished);
                }
                Some(make(&mut self.first))
            }
            Path::Two => {
                if self.second.len() >= self.goal {
                    return Some(Next::Finished);
                }
                if self.second.len() >= self.first.len() {
                    self.looks.fetch_add(1, SeqCst);
                    return None;
                }
                Some(make(&mut self.second))
            }
        }
    }

    fn drained(&mut self, _path: Path) {
        self.drains = self.drains.saturating_add(1);
    }

    fn halt(&mut self, why: Halt) {
        if self.halt.is_none() {
            self.halt = Some(why);
        }
    }
}
