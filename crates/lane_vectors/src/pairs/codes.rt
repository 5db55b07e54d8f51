//! A table in memory for the tests of both paths at once. Its paths make records of an auxiliary
//! code each, and wait for nobody.
//! runs.rt uses it.

ghost use Rattle.std.specs.Prelude.{◌≡◌, [], ◌∷◌, true, false, Some};
ghost use Rattle.nc_moves.specs.declared.motion.Move.TheVariants.{Aux};
ghost use Rattle.nc_outside.specs.Lined.{lined_moves, lined_move};
ghost use Rattle.lane_vectors.specs.Codes.{codes_told};
ghost use Rattle.seat_table.specs.Turning.{Answers, IsNoDrain};

use nc_moves::{Move, MoveList, Moves};
use nc_number::Path;
use nc_outside::{Halt, Next};
use seat_table::Turns;
use std::alloc::Global;
use std::sync::atomic::AtomicU64;
use std::sync::atomic::Ordering::SeqCst;

/// The table: the codes of each path's records, and what the tests count.
#[derive(Drop)]
pub struct CodeTable<'a> {
    /// The auxiliary codes of path 1's records.
    pub first: Vec<u16>,
    /// The auxiliary codes of path 2's records.
    pub second: Vec<u16>,
    /// How many records path 1 and path 2 make.
    pub goals: (usize, usize),
    /// How many steps there were.
    pub steps: &'a AtomicU64,
    /// Whether path 1 is to be drained before its first record, and was not yet.
    pub drains: bool,
    /// Whether path 1 was asked for that.
    pub asked: bool,
    /// How many drains it was told.
    pub drained: u64,
    /// Why the table was halted.
    pub halt: Option<Halt>,
    // The rest comes before the first record.
    ghost unmade: { drains ≡ true → asked ≡ false → first.items ≡ [] },
}

impl<'a> CodeTable<'a> {
    /// A table without records.
    pub fn new(
        alloc: Global,
        goals: (usize, usize),
        drains: bool,
        steps: &'a AtomicU64,
    ) -> CodeTable<'a>
        ensures { (result.first.items ≡ []) × (result.second.items ≡ []) × (result.asked ≡ false) }
    {
        CodeTable {
            first: Vec::new(alloc),
            second: Vec::new(alloc),
            goals,
            steps,
            drains,
            asked: false,
            drained: 0,
            halt: None,
        }
    }
}

/// The moves of a block with this auxiliary code.
fn block(m: u16) -> Moves
    ensures { lined_moves result ≡ lined_move 1 (Aux m) ∷ [] }
{
    let mut list = MoveList::empty();
    list.push(Move::Aux { m });
    Moves { line: 1, list }
}

/// One record more of a path, or its end if it has as many as its goal.
fn make(records: &mut Vec<u16>, goal: usize) -> Next
    ensures undrained { IsNoDrain (Some result) }
    ensures made { Answers (codes_told records.old.items) result (codes_told records.new.items) }
{
    if records.len() >= goal {
        return Next::Finished;
    }
    let m = (records.len() % 1000) as u16;
    if records.push(m).is_err() {
        return Next::Finished;
    }
    Next::Moves(block(m))
}

impl<'a> Turns for CodeTable<'a> {
    ghost use Rattle.std.specs.Prelude.{false, is_none};
    ghost use Rattle.lane_vectors.specs.Codes.{told_of, drains_of};

    ghost told = { λ t path. told_of path t.asked t.first.items t.second.items };

    ghost reason = { λ t. t.halt };

    ghost waits = { λ _ _. false };

    ghost drains = { λ t path. drains_of path (is_none t.halt) t.drains t.asked };

    fn waits(&self, _path: Path) -> bool {
        false
    }

    #[tactic(auto, using(crate::proofs::RestFirst::answers_behind_rest, crate::proofs::RestFirst::rest_alone))]
    fn turn_step(&mut self, path: Path) -> Option<Next> {
        self.steps.fetch_add(1, SeqCst);
        if let Some(why) = self.halt {
            return Some(Next::Halted(why));
        }
        match path {
            Path::One if self.drains && self.asked => Some(Next::Silent),
            Path::One if self.drains => {
                self.asked = true;
                Some(Next::Drain(101))
            }
            Path::One => Some(make(&mut self.first, self.goals.0)),
            Path::Two => Some(make(&mut self.second, self.goals.1)),
        }
    }

    fn drained(&mut self, path: Path) {
        self.drained = self.drained.saturating_add(1);
        if let Path::One = path {
            self.drains = self.drains && !self.asked;
        }
    }

    fn halt(&mut self, why: Halt) {
        if self.halt.is_none() {
            self.halt = Some(why);
        }
    }
}
