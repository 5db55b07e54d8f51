//! Where reports go: the trait of an output.
ghost use Rattle.std.specs.Prelude.{◌≡◌, ℕ, take, OnOk, OnErr, IsErrOf};
ghost use Rattle.nc_outside.specs.declared.sink.PutFault.TheVariants.{NoMemory};
ghost use Rattle.nc_outside.specs.Faults.{CountsFault};
ghost use Rattle.nc_outside.specs.Written.{SinkState, TellsOn, Writes};

use std::alloc::AllocError;
use thiserror::Error;

/// Why a piece was not written whole.
#[derive(Clone, Copy, Debug, PartialEq, Eq, Error)]
pub enum PutFault {
    /// The sink itself failed.
    #[error("the sink failed")]
    Failed,
    /// Memory ran out.
    #[error("out of memory")]
    NoMemory,
}

impl From<AllocError> for PutFault {
    ghost from_gives = { λ _ fault. fault ≡ NoMemory };

    /// No memory left is `NoMemory`.
    fn from(_: AllocError) -> Self {
        PutFault::NoMemory
    }
}

/// Takes bytes, in order.
pub trait Sink {
    /// What was written, if the sink tells that, and how often it has failed.
    ghost state: { Self → SinkState };

    /// How often the sink has failed.
    fn faults(&self) -> u64
        ensures { result ≡ (state self.now).faults };

    /// Writes a piece after what is there. After an error a part of the piece, from its start, may
    /// be there.
    fn put(&mut self, piece: &[u8]) -> Result<(), PutFault>
        ensures ok { OnOk result (Writes (state self.old) (state self.new) piece.now) }
        ensures err { OnErr result ((n : ℕ) × Writes (state self.old) (state self.new) (take n piece.now)) }
        ensures tells { TellsOn (state self.old) (state self.new) }
        ensures fault { CountsFault (state self.old).faults (state self.new).faults (IsErrOf result PutFault.Failed) };
}
