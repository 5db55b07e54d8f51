//! What `is_read_as` tells. The law is the contract of a function that does nothing.
ghost use Rattle.std.specs.Prelude.{◌≡◌, List, true};
ghost use Rattle.nc_text.specs.declared.tape.Program.{Program};
ghost use Rattle.plain_blocks.specs.declared.step.Step.{Step};
ghost use Rattle.written_blocks.specs.Tapes.{is_read_as};
ghost use Rattle.written_blocks.specs.Told.{told_programs, written_programs};

/// A tape that is read as what became of another has its programs, by number, and in each the blocks
/// that stayed and those that were written, in their order, each with its sequence number and its
/// words.
pub fn what_is_read_was_written()
    ensures { (again tape : List Program) (all : List (List Step)) → is_read_as again tape all ≡ true
        → told_programs again ≡ written_programs tape all }
{}
