//! Where control goes from a place (the open programs of a path, the running one first), by the
//! order of its tape. Who asks moves the place then. What a move does to the place is in place.rt.
ghost use Rattle.std.specs.Prelude.{◌≡◌, ◌∷◌};
ghost use Rattle.block_order.specs.Moves.{place_to, place_of_jump, place_behind_loop, place_of_head};
ghost use Rattle.block_order.specs.Moves.{place_of_caller, place_of_jump_back};
ghost use Rattle.block_order.specs.Frames.{callers};

use crate::frame::Frame;
use crate::order::BlockOrder;
use crate::place::Place;
use nc_number::Cause;

impl Place {
    /// Where a jump of the running program to the sequence number leads.
    ///
    /// Errors: [`Cause::NoSequence`], 50, where the program has no such number;
    /// [`Cause::IntoLoop`], 53, where a loop holds the target and not the running block.
    pub fn jump(&self, order: &BlockOrder, number: u32) -> Result<u32, Cause>
        ensures { place_of_jump order.now number self.now ≡ place_to self.now result }
    {
        let at = self.running();
        order.target(at.program, at.block, number)
    }

    /// Where a loop is left whose head is the running block: behind its END.
    ///
    /// Errors: [`Cause::LoopMismatch`] where no loop begins; in an order that was checked a head
    /// has its END.
    pub fn loop_exit(&self, order: &BlockOrder) -> Result<u32, Cause>
        ensures { place_behind_loop order.now self.now ≡ place_to self.now result }
    {
        let at = self.running();
        match order.loop_end(at.program, at.block) {
            Some(close) => Ok(close + 1),
            None => Err(Cause::LoopMismatch),
        }
    }

    /// Where a loop begins again whose END is the running block: at its head.
    ///
    /// Errors: [`Cause::LoopMismatch`] where no loop ends; in an order that was checked an END has
    /// its head.
    pub fn loop_head(&self, order: &BlockOrder) -> Result<u32, Cause>
        ensures { place_of_head order.now self.now ≡ place_to self.now result }
    {
        let at = self.running();
        match order.loop_head(at.program, at.block) {
            Some(head) => Ok(head),
            None => Err(Cause::LoopMismatch),
        }
    }

    /// The frame that M99 with a sequence number jumps in: the caller's, in the main program the
    /// running one.
    fn returning(&self) -> Frame
        ensures { place_of_caller self.now ≡ result ∷ callers (place_of_caller self.now) }
    {
        match self.caller() {
            Some(caller) => caller,
            None => self.running(),
        }
    }

    /// Where M99 with a sequence number leads: to a block of the caller, in the main program to a
    /// block of that.
    ///
    /// Errors: those of [`jump`](Place::jump).
    pub fn jump_back(&self, order: &BlockOrder, number: u32) -> Result<u32, Cause>
        ensures { place_of_jump_back order.now number self.now ≡ place_to (place_of_caller self.now) result }
    {
        let at = self.returning();
        order.target(at.program, at.block, number)
    }
}
