//! The one list of labels that all runs of an order come to.
ghost use Rattle.block_order.specs.Labels.{IsUnforked};

use block_order::{BlockOrder, a_tape_without_faults_is_unforked};

/// All runs of an order come to one list of labels: a caller of the function has that of this
/// order.
pub fn runs_have_one_list(order: &BlockOrder)
    ensures { IsUnforked order.now }
{
    let _programs = order.as_slice();
    a_tape_without_faults_is_unforked();
}
