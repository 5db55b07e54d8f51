//! Standard output as the sink of a command's answer.
ghost use Rattle.std.specs.Prelude.{◌≡◌, None};

use nc_outside::{PutFault, Sink};
use std::io;
use std::io::Write;

/// Standard output. It tells nothing of what was written.
#[derive(Drop)]
pub struct StdSink<'a, R: Print> {
    /// The system.
    rt: &'a R,
    /// How many calls have failed.
    faults: u64,
}

impl<'a, R: Print> StdSink<'a, R> {
    /// The sink over this system's standard output, which has not failed yet.
    pub fn new(rt: &'a R) -> Self
        ensures { result.faults ≡ 0 }
    {
        StdSink { rt, faults: 0 }
    }
}

impl<R: Print> Sink for StdSink<'_, R> {
    ghost state = { λ sink. record { written = None; faults = sink.faults } };

    /// How many calls have failed.
    fn faults(&self) -> u64 {
        self.faults
    }

    /// Prints all bytes at once.
    fn put(&mut self, piece: &[u8]) -> Result<(), PutFault> {
        if write(self.rt, piece).is_err() {
            self.faults = self.faults.saturating_add(1);
            return Err(PutFault::Failed);
        }
        Ok(())
    }
}

/// Prints all bytes, at once.
fn write<R: Print>(rt: &R, piece: &[u8]) -> io::Result<()> {
    let mut out = io::writer(rt);
    out.write_all(piece)?;
    out.flush()
}
