//! One thing for each path, such as its tape or its turret.
ghost use Rattle.std.specs.Prelude.{◌≡◌};
ghost use Rattle.nc_number.specs.Both.{of_path};

use crate::path::Path;

/// One thing for each path of the machine.
#[derive(Clone, Copy, Debug, PartialEq, Eq)]
pub struct Both<T> {
    /// What is path 1's.
    pub one: T,
    /// What is path 2's.
    pub two: T,
}

impl<T> Both<T> {
    /// What is that path's.
    pub fn of(&self, path: Path) -> &T
        ensures { result.now ≡ of_path self.now path }
    {
        match path {
            Path::One => &self.one,
            Path::Two => &self.two,
        }
    }
}
