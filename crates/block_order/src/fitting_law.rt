//! The law of loops whose heads and ends fit together. No crate calls it, and no proof rests on it:
//! it says in other words what is checked of loops.
ghost use Rattle.std.specs.Prelude.{List};
ghost use Rattle.block_order.specs.declared.program.ControlBlock.{ControlBlock};
ghost use Rattle.block_order.specs.Fitting.{Fits, IsNested};

/// Where no block is a mismatch, each head has exactly one END and each END one head, two loops are
/// apart or one lies inside the other, and no loop lies in one of its own name.
pub fn loops_that_fit_are_nested()
    ensures { (bs : List ControlBlock) → Fits bs → IsNested bs }
{}
