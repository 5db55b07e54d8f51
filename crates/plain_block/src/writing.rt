//! The blocks of a form, one after another.
ghost use Rattle.std.specs.Prelude.{◌≡◌, ◌++◌, ◌∷◌, [], OnOk};

use crate::block::PlainBlock;
use crate::course::Course;
use std::alloc::AllocError;

/// Puts one block more.
pub fn push_block(blocks: &mut Vec<PlainBlock>, block: PlainBlock) -> Result<(), AllocError>
    ensures ok { OnOk result (blocks.new.items ≡ blocks.old.items ++ block ∷ []) }
{
    match block {
        PlainBlock::Move { course, x, z } => {
            let course: Course = course;
            blocks.push(PlainBlock::Move { course, x, z })?;
        }
        PlainBlock::Dwell { ms } => blocks.push(PlainBlock::Dwell { ms })?,
    }
    Ok(())
}
