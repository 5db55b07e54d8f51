//! An example for a builder: a program with a turret of its own. It runs the pair of tapes that
//! lies beside it (`data`), and says what each turret got (`stdout`). No crate uses it.
//!
//! A real turret drives its axes in `hand`. It may queue moves and look ahead: `settle` waits until
//! it stands still, and is called at the place, before each wait with its code, and at the end. A call that
//! fails stops the run, and is counted.
#![tactic(auto)]

use lathe_top::top;
use nc_number::Point;
use nc_outside::{Failed, LinedMove, Rest, Turret};
use real_outside::{Access, FileDisk, FileShelf, StdSink, SystemFolder};

/// A turret that counts its moves, and keeps the line of the last one.
#[derive(Drop)]
struct OwnTurret {
    /// How many moves it got.
    moves: u64,
    /// The line of the tape of its last move.
    line: u32,
}

impl Turret for OwnTurret {
    ghost use Rattle.std.specs.Prelude.{None};

    ghost state = { λ _. record { received = None; faults = 0 } };

    /// How many calls have failed: none ever does.
    fn faults(&self) -> u64 {
        0
    }

    /// Takes the place of the path, which comes before its first move.
    fn place(&mut self, _at: Point) -> Result<(), Failed> {
        Ok(())
    }

    /// Counts a move and keeps its line.
    fn hand(&mut self, what: &LinedMove) -> Result<(), Failed> {
        self.moves = self.moves.saturating_add(1);
        self.line = what.line;
        Ok(())
    }

    /// It always stands still.
    fn settle(&mut self, _at: Rest) -> Result<(), Failed> {
        Ok(())
    }
}

impl OwnTurret {
    /// A turret that has got no move.
    fn new() -> Self {
        OwnTurret { moves: 0, line: 0 }
    }
}

/// Runs a pair with two turrets of its own, and prints what they got.
fn main(rt: HostRuntime) -> Result<(), anyhow::Error> {
    let alloc = rt.alloc();
    let words = vec![in alloc;
        String::from_str(alloc, "run")?,
        String::from_str(alloc, "upper.nc")?,
        String::from_str(alloc, "lower.nc")?,
        String::from_str(alloc, "cell.txt")?,
    ]?;
    let mut shelf = FileShelf::new(&rt);
    let mut report = StdSink::new(&rt);
    let outcome = top(
        &rt,
        alloc,
        words.as_slice(),
        &mut shelf,
        FileDisk::new(SystemFolder::new(&rt), "own.journal", Access::Write),
        FileDisk::new(SystemFolder::new(&rt), "own_branch.journal", Access::Write),
        OwnTurret::new(),
        OwnTurret::new(),
        &mut report,
    );
    println!(rt; "status {}", outcome.status())?;
    println!(rt;
        "turret 1: {} moves, the last of line {}",
        outcome.left.moves, outcome.left.line
    )?;
    println!(rt;
        "turret 2: {} moves, the last of line {}",
        outcome.right.moves, outcome.right.line
    )?;
    Ok(())
}
