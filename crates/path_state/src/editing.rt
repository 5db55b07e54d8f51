//! What an operator's edit does to a stopped path: it sets an offset or a common variable of the
//! path's own. Nothing of control changes.
ghost use Rattle.std.specs.Prelude.{◌≡◌};
ghost use Rattle.run_records.specs.declared.edit.Edit.{Edit};
ghost use Rattle.path_state.specs.View.{PathView};
ghost use Rattle.common_vars.specs.Common.{IsCommon};
ghost use Rattle.path_state.specs.Edits.{own_with, path_with_edit, KeepsControl};

use crate::path::PathState;
use nc_number::Var;
use run_records::Edit;

impl PathState {
    /// Sets what an edit sets of the path: an offset, or a common variable of its own.
    ///
    /// A variable that both paths share is no part of a path: nothing changes here.
    pub fn edit(&mut self, what: &Edit)
        ensures { self.new ≡ path_with_edit what.now self.old }
    {
        match what {
            Edit::Offset { slot, to } => self.offsets.put(slot, to.get()),
            Edit::Common { variable, to } => self.set_own(variable.get(), *to),
        }
    }

    /// Sets a common variable, if it is the path's own.
    fn set_own(&mut self, v: u32, to: Var)
        requires { IsCommon v }
        ensures { self.new ≡ record self.old { own = own_with self.old.fixed v to self.old.own } }
    {
        if !self.shares(v) {
            self.own.set(v, to);
        }
    }
}

/// An edit moves nothing: place, calls, local variables, what is in force, position and what is
/// fixed for the path stay.
pub fn edits_keep_control()
    ensures { (path : PathView) (edit : Edit) → KeepsControl path (path_with_edit edit path) }
{}
