//! An operator's edit of a path, over its own part, the other's, and what both have in common. What
//! an edit does to one path is in path_state.
//! For this crate alone: machine.rt calls `set`, for an edit and for its record.
ghost use Rattle.std.specs.Prelude.{◌≡◌, ◌≤◌, ◌<◌, IfSome};
ghost use Rattle.nc_number.specs.declared.limits.TheConstants.{MOST_RECORDS};
ghost use Rattle.common_vars.specs.Writes.{IsShared};
ghost use Rattle.path_state.specs.StatementSteps.{write_seen};
ghost use Rattle.path_state.specs.Edits.{shared_write};
ghost use Rattle.two_path.specs.Machine as Machine;
ghost use Rattle.two_path.specs.Edits.{behind_edit};
ghost use Rattle.two_path.specs.Joined.{machine_of, AreShared, IsLasting};

use crate::joint::Joint;
use crate::part::Part;
use nc_number::Var;
use run_records::Edit;

/// What an edit writes to a variable that both paths share, if it sets one.
fn shared_write(joint: &Joint, what: &Edit) -> Option<(u32, Var)>
    ensures write { (part : Machine.Part) → AreShared part joint.now
        → write_seen result ≡ shared_write part.path.fixed what.now }
    ensures shared { IfSome result (λ w. IsShared joint.now.shared.shared100 joint.now.shared.shared500 w.0) }
{
    match what {
        Edit::Offset { .. } => None,
        Edit::Common { variable, to } => if joint.holds(variable.get()) {
            Some((variable.get(), *to))
        } else {
            None
        },
    }
}

/// Sets what the edit sets, by one record more, behind which both paths' blocks read anew.
pub(crate) fn set(me: &mut Part, other: &mut Part, joint: &mut Joint, what: &Edit)
    requires room { 0 < joint.old.shared.room }
    requires few { joint.old.count ≤ MOST_RECORDS }
    requires shared { AreShared me.old joint.old }
    ensures machine { machine_of me.new other.new joint.new
        ≡ behind_edit what.now (machine_of me.old other.old joint.old) }
    ensures lasting { IsLasting joint.old joint.new }
{
    joint.add(shared_write(joint, what));
    me.edit(what, joint.count());
    other.read_anew(joint.count());
}
