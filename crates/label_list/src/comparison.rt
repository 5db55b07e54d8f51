//! Where the labels of two paths differ, lines aside. 72 is the refusal.
ghost use Rattle.std.specs.Prelude.{◌≡◌, ◌≤◌, length, IsOk, IfErr, IfSome, IfNone};
ghost use Rattle.nc_number.specs.declared.limits.TheConstants.{MOST_LABELS};
ghost use Rattle.label_list.specs.Lists.{bare_labels, IsEnded};
ghost use Rattle.label_list.specs.Faults.{IsMismatch};

use crate::fault::PairFault;
use crate::labelled::Labelled;
use crate::list::LabelList;

/// The fault at the first place where the labels differ, lines aside.
fn first_difference(left: &[Labelled], right: &[Labelled]) -> Option<PairFault>
    requires left_ended { IsEnded left.now }
    requires right_ended { IsEnded right.now }
    requires few { length left.now ≤ MOST_LABELS }
    ensures some { IfSome result (IsMismatch left.now right.now) }
    ensures none { IfNone result (bare_labels left.now ≡ bare_labels right.now) }
{
    for after in 0..left.len().min(right.len()) {
        let one = left[after];
        let two = right[after];
        if one.label != two.label {
            return Some(PairFault::mismatch(after as u32, one.line, two.line));
        }
    }
    None
}

/// Whether two paths come to the same labels, lines aside. Takes no memory.
///
/// Errors: 72 with the number of equal labels before the first difference, and the lines of the two
/// labels there.
pub fn compare(left: &LabelList, right: &LabelList) -> Result<(), PairFault>
    ensures same { IsOk result → bare_labels left.now ≡ bare_labels right.now }
    ensures differ { IfErr result (IsMismatch left.now right.now) }
{
    match first_difference(left.as_slice(), right.as_slice()) {
        Some(fault) => Err(fault),
        None => Ok(()),
    }
}
