//! The law that no tape is both accepted and refused. Who calls the function has the law; it does
//! nothing when it runs.
ghost use Rattle.std.specs.Prelude.{ℕ, List};
ghost use Rattle.nc_text.specs.declared.tape.Program.{Program};
ghost use Rattle.block_words.specs.declared.dialect.Dialect.{Dialect};
ghost use Rattle.tape_flow.specs.Forms.{ProgramForm};
ghost use Rattle.tape_flow.specs.Exact.{IsAccepted, IsRefused};

/// No tape is both accepted and refused.
pub fn an_accepted_tape_is_not_refused()
    ensures { (dialect : Dialect) (tape : List Program) (programs : List ProgramForm) (line number : ℕ)
        → IsAccepted dialect tape programs → IsRefused dialect tape line number → ⊥ }
{}
