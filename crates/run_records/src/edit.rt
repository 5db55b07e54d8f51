//! What an operator corrects in a run before it goes on: an offset or a common variable of a path.

ghost use Rattle.std.specs.Prelude.{◌≡◌};

use common_vars::CommonNumber;
use nc_number::Var;
use offset_store::{Offset, Slot};

/// A correction of one path: an offset, or a common variable, is set by the operator.
#[derive(Clone, Copy, Debug, PartialEq, Eq)]
pub enum Edit {
    /// An offset of the path gets this point.
    Offset { slot: Slot, to: Offset },
    /// A common variable, the path's own or a shared one, gets a value or is made vacant.
    Common { variable: CommonNumber, to: Var },
}
