//! What stands in a block: words or a statement. The block around it is in block.rt.
use crate::statement::FlowStatement;
use crate::words::FlowWords;

/// What stands in a block.
#[derive(Drop)]
pub enum FlowBody {
    /// Words; no word if the block has a sequence number or a skip sign alone.
    Words(FlowWords),
    /// An assignment, a jump or a loop.
    Statement(FlowStatement),
}
