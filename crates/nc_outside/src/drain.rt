//! A proof that a line of moves was drained.
ghost use Rattle.std.specs.Prelude.{◌≡◌, ℕ};

/// A line was drained after so many moves: its turret was handed all of them, and stands still.
/// Who makes lines makes a type of such proofs, of which only a drain of a line gives a value.
pub trait Drain: Drop {
    /// How many moves were sent before the drain.
    ghost count: { Self → ℕ };

    /// The number of moves that were sent before the drain.
    fn count(&self) -> u64
        ensures { result ≡ count self.now };
}
