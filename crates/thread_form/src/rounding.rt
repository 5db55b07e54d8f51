//! To which side a depth that is a root is rounded, as the machine does.
ghost use Rattle.std.specs.Prelude.{◌≡◌};
ghost use Rattle.thread_form.specs.Rounding.{rounding_of};

use plain_form::Roots;
use thread_cycle::RootRounding;

/// The rounding of a machine.
pub(crate) fn rounding_of(roots: Roots) -> RootRounding
    ensures { result ≡ rounding_of roots }
{
    match roots {
        Roots::Down => RootRounding::Down,
        Roots::Up => RootRounding::Up,
    }
}
