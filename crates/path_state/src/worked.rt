//! Worked blocks: examples that show a reader what the definitions of specs/Effect.antt come to.
//! For readers: no other crate calls it.
ghost use Rattle.path_state.specs.Worked.{WorkedBlocks};

/// Worked blocks, and what the definitions make of them.
pub fn worked_blocks_come_to_these()
    ensures { WorkedBlocks }
{}
