//! The blocks that are looked for, as a trait.
ghost use Rattle.std.specs.Prelude.{◌≡◌, ℕ, Option};

/// The blocks of a tape that are looked for.
pub trait BlockLines {
    /// The line of a block of a program, by its place, if the block is looked for.
    ghost line: { Self → ℕ → ℕ → Option ℕ };

    /// The line of the block, if it is looked for.
    fn line(&self, program: u16, place: usize) -> Option<u32>
        ensures { result ≡ line self.now program place };
}
