//! An accepted pair, by its type: only verifying.rt makes one. So who holds it knows that both tapes
//! read, and that no path will wait in vain.
ghost use Rattle.std.specs.Prelude.{◌≡◌};
ghost use Rattle.label_list.specs.Accepted.{IsAcceptedPair};

use cell_settings::Settings;
use tape_flow::Flow;

/// The flows of an accepted pair of tapes, and the settings under which they were read.
#[derive(Drop)]
pub struct Verified {
    /// The flow of path 1's tape.
    left: Flow,
    /// The flow of path 2's tape.
    right: Flow,
    /// The settings under which both tapes were read.
    settings: Settings,
    ghost accepted: { IsAcceptedPair left.order right.order },
}

impl Verified {
    /// The pair of two flows that are accepted as one.
    pub(crate) fn of(left: Flow, right: Flow, settings: Settings) -> Self
        requires { IsAcceptedPair left.order right.order }
        ensures left { result.left ≡ left }
        ensures right { result.right ≡ right }
        ensures settings { result.settings ≡ settings }
    {
        Verified {
            left,
            right,
            settings,
        }
    }

    /// The flow of path 1's tape.
    pub fn left(&self) -> &Flow
        ensures same { result.now ≡ self.now.left }
        ensures accepted { IsAcceptedPair self.now.left.order self.now.right.order }
    {
        &self.left
    }

    /// The flow of path 2's tape.
    pub fn right(&self) -> &Flow
        ensures same { result.now ≡ self.now.right }
        ensures accepted { IsAcceptedPair self.now.left.order self.now.right.order }
    {
        &self.right
    }

    /// The settings of the cell.
    pub fn settings(&self) -> &Settings
        ensures { result.now ≡ self.now.settings }
    {
        &self.settings
    }
}
