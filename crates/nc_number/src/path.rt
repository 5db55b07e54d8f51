//! The two paths of the machine, their numbers and their places in lists of two. Most crates above
//! name a path by this type; its bare number is for what is printed or stored.
ghost use Rattle.std.specs.Prelude.{◌≡◌, ◌<◌};
ghost use Rattle.nc_number.specs.Path.{number_of, path_of, index_of, other_of};

/// A path of the machine: one turret with its own tape.
#[derive(Clone, Copy, Debug, PartialEq, Eq)]
pub enum Path {
    /// Path 1, the first turret.
    One,
    /// Path 2, the second turret.
    Two,
}

impl Path {
    /// 1 or 2.
    pub fn number(self) -> u8
        ensures { result ≡ number_of self }
    {
        match self {
            Path::One => 1,
            Path::Two => 2,
        }
    }

    /// The path of that number, if it is 1 or 2.
    pub fn of_number(number: u8) -> Option<Path>
        ensures { result ≡ path_of number }
    {
        match number {
            1 => Some(Path::One),
            2 => Some(Path::Two),
            _ => None,
        }
    }

    /// The place of the path among the two, counted from 0.
    pub fn index(self) -> usize
        ensures place { result ≡ index_of self }
        ensures pair { result < 2 }
    {
        match self {
            Path::One => 0,
            Path::Two => 1,
        }
    }

    /// The path beside this one.
    pub fn other(self) -> Path
        ensures { result ≡ other_of self }
    {
        match self {
            Path::One => Path::Two,
            Path::Two => Path::One,
        }
    }
}
