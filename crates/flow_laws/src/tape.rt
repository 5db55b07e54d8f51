//! The answers that a tape has: its programs, or one refusal. The first is for readers.
ghost use Rattle.std.specs.Prelude.{◌≡◌, ◌↔◌, ℕ, List};
ghost use Rattle.nc_text.specs.declared.tape.Program.{Program};
ghost use Rattle.block_words.specs.declared.dialect.Dialect.{Dialect};
ghost use Rattle.tape_flow.specs.Exact.{IsAccepted, IsRefused};
ghost use Rattle.tape_flow.specs.Forms.{ProgramForm};
ghost use Rattle.flow_laws.specs.Answers.{CantBothFail, HasRisingBlocks};
ghost use Rattle.flow_laws.specs.OneList.{ReadsWithOneList};

use crate::order::{
    a_tape_has_one_first_fault, a_tape_has_one_list_where_no_wait_is_at_fault,
    no_tape_is_unsound_without_a_fault,
};

/// A law: a tape is accepted exactly if its blocks read, its programs and loops fit together, its
/// jumps and calls find what they name, and it has one list of labels, whatever its variables hold.
pub fn a_tape_is_accepted_exactly_with_one_list()
    ensures { (dialect : Dialect) (tape : List Program) (programs : List ProgramForm)
        → IsAccepted dialect tape programs ↔ ReadsWithOneList dialect tape programs }
{
    a_tape_has_one_list_where_no_wait_is_at_fault();
}

/// A law: a tape that is refused is refused at one line, by one number, if its blocks stand on
/// rising lines, as those of every tape that was read do (lines.rt).
pub fn a_refused_tape_has_one_refusal()
    ensures { (dialect : Dialect) (tape : List Program) (line other_line number other : ℕ)
        → HasRisingBlocks tape → IsRefused dialect tape line number → IsRefused dialect tape other_line other
        → (line ≡ other_line) × (number ≡ other) }
{
    a_tape_has_one_first_fault();
}

/// A law: no tape is neither accepted nor refused.
pub fn no_tape_is_without_an_answer()
    ensures { (dialect : Dialect) (tape : List Program)
        → CantBothFail ((programs : List ProgramForm) × IsAccepted dialect tape programs)
        ((line : ℕ) × (number : ℕ) × IsRefused dialect tape line number) }
{
    no_tape_is_unsound_without_a_fault();
}
