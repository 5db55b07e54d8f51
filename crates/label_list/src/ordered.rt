//! The labels of a path from the order of its blocks alone, also if nothing else is known of the
//! blocks. The file's name stands for blocks whose order is known.
ghost use Rattle.std.specs.Prelude.{◌≡◌, IfOk, IfErr};
ghost use Rattle.block_order.specs.Answers.{IfFault};
ghost use Rattle.label_list.specs.Lists.{path_labels};
ghost use Rattle.label_list.specs.Pieces.{IsListTooLong};

use crate::fault::PairFault;
use crate::list::LabelList;
use crate::listing::main_labels;
use block_order::BlockOrder;
use nc_number::Failing;
use std::alloc::Global;

/// The labels of a path from the order of its blocks, whatever else the blocks say.
///
/// Errors: 70 if there are more than 65,536 labels; the path is left to the caller. `NoMemory`: out
/// of memory.
pub fn labels_of_order(alloc: Global, order: &BlockOrder) -> Result<LabelList, Failing<PairFault>>
    ensures list { IfOk result (λ list. list ≡ path_labels order.now) }
    ensures many { IfErr result (λ error. IfFault error (IsListTooLong (path_labels order.now))) }
{
    match main_labels(alloc, order) {
        Ok(labels) => Ok(LabelList::of(labels)),
        Err(error) => Err(error),
    }
}
