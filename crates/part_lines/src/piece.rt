//! The least lines of one program, part by part, as they grow: its blocks' lines, its waits, and
//! the lines of what it calls. For this crate alone: listing.rt makes and joins pieces.
ghost use Rattle.std.specs.Prelude.{◌≡◌, ◌<◌, ◌∷◌, None, OnOk, IfOk};
ghost use Rattle.part_lines.specs.Lines.{Lines};
ghost use Rattle.part_lines.specs.Pieces.{shown_lines, stop_of, IsSeen, AreJoined, AreAdded};

use nc_number::{NoMemory, lesser};
use std::alloc::Global;

/// What comes behind the lines of a program.
#[derive(Clone, Copy, Debug, PartialEq, Eq)]
pub(crate) enum Ending {
    /// Nothing: the path ends there.
    Stops,
    /// The caller goes on.
    Returns,
}

/// The least line of each part that ends in a program, and of the part in which the program ends.
#[derive(Debug, Drop)]
pub(crate) struct PieceLines {
    /// The least line of each part that a wait of the program, or of what it calls, has ended.
    pub(crate) done: Vec<Option<u32>>,
    /// The least line so far of the part that goes on.
    pub(crate) last: Option<u32>,
}

/// The lines of a program, and what comes behind them.
#[derive(Debug, Drop)]
pub(crate) struct Piece {
    /// The least line of each of its parts.
    pub(crate) lines: PieceLines,
    /// Whether the path ends with the program or the caller goes on.
    pub(crate) ending: Ending,
}

impl PieceLines {
    /// No line, and no wait.
    pub(crate) fn new(alloc: Global) -> Self
        ensures { (behind : Lines) → shown_lines result behind ≡ behind }
    {
        PieceLines {
            done: Vec::new(alloc),
            last: None,
        }
    }

    /// Takes a line into the part that goes on.
    pub(crate) fn see(&mut self, line: Option<u32>)
        ensures { IsSeen self.old self.new line }
    {
        self.last = lesser(self.last, line);
    }

    /// Takes a wait: the part that went on is done, and the next one has no line.
    pub(crate) fn pass(&mut self) -> Result<(), NoMemory>
        ensures { OnOk result ((behind : Lines) → shown_lines self.new behind ≡ shown_lines self.old (None ∷ behind)) }
    {
        self.done.push(self.last)?;
        self.last = None;
        Ok(())
    }

    /// Takes the lines of a program that was called once.
    fn join(&mut self, more: &PieceLines) -> Result<(), NoMemory>
        ensures { OnOk result ((behind : Lines) → shown_lines self.new behind
            ≡ shown_lines self.old (shown_lines more.now behind)) }
    {
        for line in &more.done {
            self.see(*line);
            self.pass()?;
        }
        self.see(more.last);
        Ok(())
    }

    /// Takes the lines of a program that was called so many times. Repeats without a wait cost
    /// nothing.
    fn join_times(&mut self, more: &PieceLines, times: u16) -> Result<(), NoMemory>
        requires { 0 < times }
        ensures { OnOk result (AreJoined self.old self.new times more.now) }
    {
        if more.done.is_empty() {
            self.see(more.last);
            return Ok(());
        }
        for _time in 0..times {
            self.join(more)?;
        }
        Ok(())
    }
}

impl Piece {
    /// Adds these lines to those of the program that makes the call so many times, at least once.
    /// The answer is the ending of that program, if nothing comes behind these lines.
    pub(crate) fn add_to(
        &self,
        lines: &mut PieceLines,
        times: u16,
    ) -> Result<Option<Ending>, NoMemory>
        requires { 0 < times }
        ensures added { OnOk result (AreAdded self.now.ending lines.old lines.new times self.now.lines) }
        ensures stops { IfOk result (λ ending. ending ≡ stop_of self.now.ending) }
    {
        match self.ending {
            Ending::Stops => {
                lines.join(&self.lines)?;
                Ok(Some(Ending::Stops))
            }
            Ending::Returns => {
                lines.join_times(&self.lines, times)?;
                Ok(None)
            }
        }
    }
}
