//! Where the blocks of a tape stand in its text: on rising lines.
ghost use Rattle.std.specs.Prelude.{◌≡◌, ℕ, List, Ok};
ghost use Rattle.nc_text.specs.declared.tape.Program.{Program};
ghost use Rattle.nc_text.specs.Tape.{tape_of};
ghost use Rattle.flow_laws.specs.Answers.{HasRisingBlocks};

/// A law: each block of a tape that was read stands on a later line than the block before it.
pub fn lines_of_blocks_rise()
    ensures { (skips : ℕ) (text : List ℕ) (tape : List Program) → tape_of skips text ≡ Ok tape
        → HasRisingBlocks tape }
{}
