//! The law of the walk. It is the contract of a function that does nothing.
ghost use Rattle.std.specs.Prelude.{◌≡◌, ◌≤◌, List, Ok, length, map};
ghost use Rattle.nc_number.specs.declared.limits.TheConstants.{MOST_BLOCKS};
ghost use Rattle.nc_text.specs.declared.tape.Block.{Block};
ghost use Rattle.block_order.specs.declared.program.ControlProgram.{ControlProgram};
ghost use Rattle.plain_blocks.specs.declared.step.Step.{Step};
ghost use Rattle.plain_blocks.specs.declared.walk.Rules.{Rules};
ghost use Rattle.plain_blocks.specs.Order.{order_block};
ghost use Rattle.plain_blocks.specs.Targets.{stands_of};
ghost use Rattle.plain_blocks.specs.Walk.{program_steps};
ghost use Rattle.walked_tapes.specs.Walks.{IsWalk};

/// What becomes of the blocks of a program is what the relation says, and nothing else: at each place
/// that no form before it has taken, the block stays, or the first form that takes it writes lines in
/// place of it and of the blocks behind it, one a line.
pub fn the_walk_is_the_relation()
    ensures sound { (rules : Rules) (tape : List ControlProgram) (blocks : List Block) (steps : List Step) → length blocks ≤ MOST_BLOCKS
        → program_steps rules tape blocks ≡ Ok steps
        → IsWalk rules blocks (stands_of tape (map (order_block rules.dialect) blocks)) 0 rules.anywhere steps }
    ensures complete { (rules : Rules) (tape : List ControlProgram) (blocks : List Block) (steps : List Step) → length blocks ≤ MOST_BLOCKS
        → IsWalk rules blocks (stands_of tape (map (order_block rules.dialect) blocks)) 0 rules.anywhere steps
        → program_steps rules tape blocks ≡ Ok steps }
{}
