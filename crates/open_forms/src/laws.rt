//! What the open reading of a block has to do with the full one of block_forms. Each law is the
//! contract of a function that does nothing: who calls it has the law.
ghost use Rattle.std.specs.Prelude.{◌≡◌, ℕ, List, Ok};
ghost use Rattle.nc_text.specs.declared.tape.Block.{Block};
ghost use Rattle.nc_text.specs.declared.tape.Program.{Program};
ghost use Rattle.nc_text.specs.Tape.{tape_of};
ghost use Rattle.block_words.specs.declared.dialect.Dialect.{Dialect};
ghost use Rattle.block_forms.specs.Forms.{BlockForm};
ghost use Rattle.open_forms.specs.Widening.{IsWidened, IsCleanTape};

/// A block that the full reading accepts leads where its open reading says, unless it has M96, M97
/// or M198, which the full reading takes for plain codes.
pub fn what_reads_in_full_leads_where_it_said()
    ensures { (dialect : Dialect) (block : Block) (form : BlockForm) → IsWidened dialect block form }
{}

/// In each tape that was read the statements stand without blanks and comments and in upper case.
/// Only of such statements `what_reads_in_full_leads_where_it_said` speaks.
pub fn the_statements_of_a_tape_are_clean()
    ensures { (skips : ℕ) (text : List ℕ) (tape : List Program) → tape_of skips text ≡ Ok tape
        → IsCleanTape tape }
{}
