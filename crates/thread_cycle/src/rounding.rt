//! To which side a depth that is a root is rounded.
ghost use Rattle.std.specs.Prelude.{◌≡◌, ◌==◌, ◌*◌, ◌+◌, ◌<◌, ◌≤◌, ◌^◌, if◌then◌else◌};
ghost use Rattle.nc_number.specs.Arithmetic.{square_root};
ghost use Rattle.thread_cycle.specs.Depths.{rounded_root};

/// To which side a depth that is a root is rounded: down on a control that cuts its numbers, up on
/// one that takes the next increment.
#[derive(Clone, Copy, Debug, PartialEq, Eq)]
pub enum RootRounding {
    Down,
    Up,
}

impl RootRounding {
    /// The root of a square, rounded to this side.
    pub(crate) fn root(&self, square: u128) -> u64
        requires { square < 2 ^ 100 }
        ensures { result ≡ rounded_root self.now square }
    {
        let root = root_below(square);
        match *self {
            RootRounding::Down => root,
            RootRounding::Up => next_unless_whole(root, square),
        }
    }
}

/// The root of a square, rounded down.
fn root_below(square: u128) -> u64
    requires { square < 2 ^ 100 }
    ensures root { result ≡ square_root square }
    ensures near { result < 2 ^ 50 }
{
    square.isqrt() as u64
}

/// A root that was rounded down, or the next number if it is not the whole root.
fn next_unless_whole(root: u64, square: u128) -> u64
    requires { root < 2 ^ 50 }
    ensures { result ≡ (if root * root == square then root else (root + 1)) }
{
    if u128::from(root) * u128::from(root) == square {
        root
    } else {
        root + 1
    }
}
