//! How a contour is entered.
ghost use Rattle.std.specs.Prelude.{◌≡◌};
ghost use Rattle.rough_forms.specs.Roughing.{entry_leg};
ghost use Rattle.rough_forms.specs.Frames.{IsSmallLeg};

use crate::seen::Leg;

/// How a contour is entered: as the first of its blocks moves.
#[derive(Clone, Copy, Debug, PartialEq, Eq)]
pub enum Entry {
    /// At rapid traverse (G00).
    Rapid,
    /// At the feed (G01).
    Cut,
}

impl Entry {
    /// How the move to the first point runs.
    #[tactic(auto, unfolding(crate::specs::Frames::IsSmallLeg))]
    pub(crate) fn leg(&self) -> Leg
        ensures leg { result ≡ entry_leg self.now }
        ensures small { IsSmallLeg result }
    {
        match self {
            Entry::Rapid => Leg::Rapid,
            Entry::Cut => Leg::Cut,
        }
    }
}
