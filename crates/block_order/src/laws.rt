//! What holds of every tape, for the crates above. Each law is the contract of a function that does
//! nothing: who calls it has the law. No crate calls the other two, which say what the definitions
//! mean.

ghost use Rattle.std.specs.Prelude.{List, ℕ, ◌↔◌};
ghost use Rattle.block_order.specs.declared.program.ControlBlock.{ControlBlock};
ghost use Rattle.block_order.specs.declared.program.ControlProgram.{ControlProgram};
ghost use Rattle.block_order.specs.Faults.{IsClear, Waiting};
ghost use Rattle.block_order.specs.Labels.{IsUnforked};
ghost use Rattle.block_order.specs.LoopFacts.{LoopFacts, IsHeldToo};
ghost use Rattle.block_order.specs.Loud.{IsLoudExactly};
ghost use Rattle.block_order.specs.Order.{IsLoop, IsPermitted};
ghost use Rattle.block_order.specs.Steps.{KeepsLabels};

/// The law of one path: whatever its variables hold, it comes to the labels of its tape in their
/// order.
pub fn each_step_keeps_the_labels()
    ensures { (tape : List ControlProgram) → IsUnforked tape → KeepsLabels tape }
{}

/// A program is found loud exactly if it, or one that it calls, directly or through others, has a
/// wait or an end.
pub fn being_loud_is_reaching_a_wait_or_an_end()
    ensures { (tape : List ControlProgram) → IsLoudExactly tape }
{}

/// If a tape has no fault of waits, all its runs come to one list of labels.
pub fn a_tape_without_faults_is_unforked()
    ensures { (tape : List ControlProgram) → IsClear tape Waiting → IsUnforked tape }
{}

/// A loop ends at the nearest END of its name behind its head, and a jump is permitted exactly if
/// every loop that holds its target holds its own block too.
pub fn a_loop_ends_at_its_nearest_end()
    ensures ends { (bs : List ControlBlock) (head close : ℕ) → IsLoop bs head close ↔ LoopFacts bs head close }
    ensures jumps { (bs : List ControlBlock) (block target : ℕ)
        → IsPermitted bs block target ↔ IsHeldToo bs block target }
{}
