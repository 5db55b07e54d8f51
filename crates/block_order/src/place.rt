//! Where a path stands: its open programs, the running one and those whose calls are open; and what
//! each move makes of this place. Where a move leads on the tape is in moves.rt, the meaning of each
//! move in specs/Moves.antt.
ghost use Rattle.std.specs.Prelude.{◌≡◌, ◌+◌, ◌≤◌, ◌↔◌, ◌∷◌, length, reverse, slice_get};
ghost use Rattle.std.specs.Prelude.{Ok, Err, IsOk, IfErr, OnOk, OnErr};
ghost use Rattle.nc_number.specs.declared.cause.Cause.TheVariants as Cause;
ghost use Rattle.block_order.specs.Moves.{place_behind, place_at, place_of_call, place_of_return, place_of_caller};
ghost use Rattle.block_order.specs.Frames.{start_of, callers, MayPass};

use crate::frame::Frame;
use arrayvec::ArrayVec;
use nc_number::Cause;
use std::marker::Model;

/// How many calls may be open at a place. The specs write this number as 8 (`room` in Labels,
/// `place_of_call` in Moves, `IsPlace` in Steps, `deep` in Faults), or 9 for one more
/// (`IsUnforked`). wait_order has it in `reached_by_eight`, label_list and part_lines have it as
/// the 9 of `path_labels` and `path_lines`, local_levels as MOST_OPEN.
pub const MOST_CALLS: usize = 8;

/// Where a path stands: the frame that runs, and those of its callers.
#[derive(Debug, Drop)]
pub struct Place {
    /// The frame that runs.
    running: Frame,
    /// The callers, the main program first.
    below: ArrayVec<Frame, MOST_CALLS>,
}

impl Model for Place {
    ghost use Rattle.std.specs.Prelude.{List, ◌∷◌, reverse, All};
    ghost use Rattle.block_order.specs.declared.frame.Frame.{Frame};
    ghost use Rattle.block_order.specs.Frames.{HasNext};

    ghost Value = { List Frame };

    ghost view = { λ place. place.running ∷ reverse place.below.items };

    ghost invariant = { λ place. All HasNext place.below.items };
}

/// The frame at this index, the running one at 0 and the callers behind it, the latest first.
fn frame_at(running: Frame, below: &[Frame], index: usize) -> Option<Frame>
    ensures { result ≡ slice_get (running ∷ reverse below.now) index }
{
    if index == 0 {
        Some(running)
    } else if index <= below.len() {
        Some(below[below.len() - index])
    } else {
        None
    }
}

impl Place {
    /// The first block of the main program, which has this O number.
    pub fn start(main: u16) -> Place
        ensures { result ≡ start_of main }
    {
        let running = Frame {
            program: main,
            block: 0,
            left: 0,
        };
        Place {
            running,
            below: ArrayVec::new(),
        }
    }

    /// The frame that runs.
    pub fn running(&self) -> Frame
        ensures { self.now ≡ result ∷ callers self.now }
    {
        self.running
    }

    /// How many calls are open.
    pub fn depth(&self) -> u8
        ensures counted { result + 1 ≡ length self.now }
        ensures limit { result ≤ MOST_CALLS }
    {
        self.below.len() as u8
    }

    /// The frame at this index: the running one at 0, its caller at 1, the main program last.
    pub fn frame(&self, index: usize) -> Option<Frame>
        ensures { result ≡ slice_get self.now index }
    {
        frame_at(self.running, self.below.as_slice(), index)
    }

    /// The frame that called the running program; none in the main program.
    pub fn caller(&self) -> Option<Frame>
        ensures { result ≡ slice_get self.now 1 }
    {
        self.frame(1)
    }

    /// Goes to the next block; a wait is passed by this too.
    pub fn next(&mut self)
        requires { MayPass self.old }
        ensures { self.new ≡ place_behind self.old }
    {
        self.running.block += 1;
    }

    /// Goes to another block of the running program, as a jump, a WHILE that is left and an END do.
    pub fn to(&mut self, block: u32)
        ensures { self.new ≡ place_at block self.old }
    {
        self.running.block = block;
    }

    /// Opens a call of a program, to run it so many times.
    ///
    /// Errors: [`Cause::TooDeep`] where eight calls are open; nothing changes then.
    pub fn call(&mut self, program: u16, repeats: u16) -> Result<(), Cause>
        requires next { MayPass self.old }
        requires some { 1 ≤ repeats }
        ensures room { IsOk result ↔ (length self.old ≤ MOST_CALLS) }
        ensures deep { IfErr result (λ cause. cause ≡ Cause.TooDeep) }
        ensures refused { OnErr result (self.new ≡ self.old) }
        ensures opens { OnOk result (place_of_call program repeats self.old ≡ Ok self.new) }
        ensures closed { IfErr result (λ cause. place_of_call program repeats self.old ≡ Err cause) }
    {
        if self.below.len() == MOST_CALLS {
            return Err(Cause::TooDeep);
        }
        self.below.push(self.running);
        self.running = Frame {
            program,
            block: 0,
            left: repeats - 1,
        };
        Ok(())
    }

    /// Returns, as M99 does: to the next repeat, or else behind the call; in the main program to
    /// its start.
    pub fn back(&mut self)
        ensures { self.new ≡ place_of_return self.old }
    {
        if self.below.is_empty() {
            self.running.block = 0;
        } else if self.running.left > 0 {
            self.running.block = 0;
            self.running.left -= 1;
        } else {
            let caller = self.below.remove(self.below.len() - 1);
            self.running = Frame {
                block: caller.block + 1,
                ..caller
            };
        }
    }

    /// Returns to a block of the caller, as M99 P does, whatever repeats are left; in the main
    /// program goes to the block.
    pub fn back_to(&mut self, block: u32)
        ensures { self.new ≡ place_at block (place_of_caller self.old) }
    {
        if !self.below.is_empty() {
            self.running = self.below.remove(self.below.len() - 1);
        }
        self.running.block = block;
    }
}
