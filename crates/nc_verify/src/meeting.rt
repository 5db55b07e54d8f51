//! Whether two orders of blocks are an accepted pair: it lists the labels of each path and compares
//! the lists. verifying.rt calls `meet` for `verify`.
ghost use Rattle.std.specs.Prelude.{◌≡◌, ◌≤◌, length, IfOk, IfErr};
ghost use Rattle.nc_number.specs.declared.limits.TheConstants.{MOST_LABELS};
ghost use Rattle.block_order.specs.Answers.{IfFault};
ghost use Rattle.block_order.specs.Labels.{IsUnforked};
ghost use Rattle.label_list.specs.Accepted.{IsAcceptedPair};
ghost use Rattle.label_list.specs.Lists.{path_labels};
ghost use Rattle.nc_verify.specs.Verdict.{IsTooLong, IsPairRefusal};

use crate::refusal::Refusal;
use block_order::{BlockOrder, a_tape_without_faults_is_unforked};
use label_list::{LabelList, a_pair_is_accepted_by_its_lists, compare, labels_of_order};
use nc_number::{Both, Failing, Path};
use std::alloc::Global;

/// The labels of a path, in order; or the refusal that there are too many, or that memory ran out.
fn labels_of(alloc: Global, path: Path, order: &BlockOrder) -> Result<LabelList, Failing<Refusal>>
    ensures list { IfOk result (λ list. list ≡ path_labels order.now) }
    ensures few { IfOk result (λ list. length list ≤ MOST_LABELS) }
    ensures many { IfErr result (λ error. IfFault error (IsTooLong path order.now)) }
{
    match labels_of_order(alloc, order) {
        Ok(list) => {
            let _labels = list.as_slice();
            Ok(list)
        }
        Err(Failing::Fault(_)) => Err(Failing::Fault(Refusal::too_long(path))),
        Err(Failing::NoMemory) => Err(Failing::NoMemory),
    }
}

/// All runs of an order come to one list of labels.
fn is_unforked(order: &BlockOrder)
    ensures { IsUnforked order.now }
{
    let _programs = order.as_slice();
    a_tape_without_faults_is_unforked();
}

/// The labels of two orders that are an accepted pair, the same ones but for their lines: else a
/// path has too many labels, path 1 before path 2, or the labels differ.
pub fn meet(
    alloc: Global,
    left: &BlockOrder,
    right: &BlockOrder,
) -> Result<Both<LabelList>, Failing<Refusal>>
    ensures accepted { IfOk result (λ _. IsAcceptedPair left.now right.now) }
    ensures left { IfOk result (λ lists. lists.one ≡ path_labels left.now) }
    ensures right { IfOk result (λ lists. lists.two ≡ path_labels right.now) }
    ensures refused { IfErr result (λ error. IfFault error (IsPairRefusal left.now right.now)) }
{
    is_unforked(left);
    is_unforked(right);
    a_pair_is_accepted_by_its_lists();
    let one = match labels_of(alloc, Path::One, left) {
        Ok(list) => list,
        Err(error) => return Err(error),
    };
    let two = match labels_of(alloc, Path::Two, right) {
        Ok(list) => list,
        Err(error) => return Err(error),
    };
    match compare(&one, &two) {
        Ok(()) => Ok(Both { one, two }),
        Err(fault) => Err(Failing::Fault(Refusal::mismatch(fault))),
    }
}
