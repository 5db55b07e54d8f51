//! Where tapes and other texts come from: the trait of named files.
ghost use Rattle.std.specs.Prelude.{◌≡◌, ℕ, ◌≤◌, List, ◌++◌, length, OnOk, OnErr, IsErrOf};
ghost use Rattle.nc_outside.specs.declared.shelf.FetchFault.TheVariants.{NoMemory};
ghost use Rattle.nc_outside.specs.Faults.{CountsFault};
ghost use Rattle.nc_outside.specs.Files.{ShelfState, Holds, HoldsMore, HoldsOn, IsAsked, Lacks};

use std::alloc::AllocError;
use thiserror::Error;

/// Why a file was not fetched.
#[derive(Clone, Copy, Debug, PartialEq, Eq, Error)]
pub enum FetchFault {
    /// The shelf itself failed.
    #[error("the shelf failed")]
    Failed,
    /// There is no file of that name.
    #[error("no such file")]
    Absent,
    /// The file is longer than was allowed.
    #[error("the file is too long")]
    TooLong,
    /// Memory ran out.
    #[error("out of memory")]
    NoMemory,
}

impl From<AllocError> for FetchFault {
    ghost from_gives = { λ _ fault. fault ≡ NoMemory };

    /// No memory left is `NoMemory`.
    fn from(_: AllocError) -> Self {
        FetchFault::NoMemory
    }
}

/// Named files, to be read whole.
pub trait Shelf {
    /// What the shelf holds and what it was asked for, if it tells that, and how often it has
    /// failed.
    ghost state: { Self → ShelfState };

    /// How often the shelf has failed.
    fn faults(&self) -> u64
        ensures { result ≡ (state self.now).faults };

    /// Appends the bytes of the file of that name, at most `max` of them. A longer file is refused.
    /// After an error nothing is appended.
    fn fetch(&mut self, name: &str, into: &mut Vec<u8>, max: usize) -> Result<(), FetchFault>
        ensures ok { OnOk result ((bytes : List ℕ) × Holds (state self.old).files name.now bytes
            × (length bytes ≤ max) × (into.new.items ≡ into.old.items ++ bytes)) }
        ensures absent { IsErrOf result FetchFault.Absent → Lacks (state self.old).files name.now }
        ensures too_long { IsErrOf result FetchFault.TooLong → HoldsMore (state self.old).files name.now max }
        ensures err { OnErr result (into.new.items ≡ into.old.items) }
        ensures files { HoldsOn (state self.old) (state self.new) }
        ensures asked { IsAsked (state self.old).asked (state self.new).asked name.now }
        ensures fault { CountsFault (state self.old).faults (state self.new).faults
            (IsErrOf result FetchFault.Failed) };
}
