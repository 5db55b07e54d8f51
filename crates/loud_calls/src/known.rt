//! The pieces that were made of programs so far, one for each O number. What a piece is, the caller
//! says.
ghost use Rattle.std.specs.Prelude.{◌≡◌, ◌≢◌, ℕ, Some, None, OnOk};
ghost use Rattle.std.specs.Option.{option_copied};
ghost use Rattle.loud_calls.specs.Known.{piece_known};

use indexmap::IndexMap;
use nc_number::NoMemory;
use std::alloc::Global;

/// The pieces of the programs that were called so far, each made once.
#[derive(Drop)]
pub struct KnownPrograms<P> {
    /// By the O number of a program its piece.
    pieces: IndexMap<u16, P>,
}

impl<P: Drop> KnownPrograms<P> {
    /// No piece is kept yet.
    pub fn new(alloc: Global) -> Self
        ensures { (q : ℕ) → piece_known result q ≡ None }
    {
        KnownPrograms {
            pieces: IndexMap::new(alloc),
        }
    }

    /// The piece of the program with this O number, if it is made.
    pub fn get(&self, program: u16) -> Option<&P>
        ensures { option_copied result ≡ piece_known self.now program }
    {
        self.pieces.get(&program)
    }

    /// Keeps the piece of a program, in place of one that was kept of it before.
    pub fn keep(&mut self, program: u16, piece: P) -> Result<(), NoMemory>
        ensures kept { OnOk result (piece_known self.new program ≡ Some piece) }
        ensures others { (q : ℕ) → q ≢ program → piece_known self.new q ≡ piece_known self.old q }
    {
        self.pieces.insert(program, piece)?;
        Ok(())
    }
}
