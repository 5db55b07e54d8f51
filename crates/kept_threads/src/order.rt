//! What a kept thread is told: a job, or to go home.
ghost use Rattle.std.specs.Prelude.{◌≡◌};

use std::sync::Wait;

/// Work for a thread, which may wait while it does it.
pub trait Job<R: Wait>: Drop {
    /// What it comes to.
    type Done: Drop;

    /// What a job may come to.
    ghost does: { Self → Self.Done → Type 0 };

    /// Does the work.
    fn work(self, rt: &R) -> Self::Done
        ensures { does self result };
}

/// What a thread is told.
#[derive(Drop)]
pub enum Order<J> {
    /// To do this job.
    Work(J),
    /// To do nothing.
    Home,
}
