//! What holds of the text that `plain` writes. The laws are contracts of functions that do nothing.
ghost use Rattle.std.specs.Prelude.{◌≡◌, ℕ, List, Ok};
ghost use Rattle.block_words.specs.declared.dialect.Dialect.{Dialect};
ghost use Rattle.plain_form.specs.declared.settings.FormSettings.{FormSettings};
ghost use Rattle.tape_plain.specs.Plain.{plain_of};
ghost use Rattle.plain_laws.specs.Written.{IsWritten};

/// What is written reads: its programs have the numbers of the tape's, and their blocks are those of
/// the tape that stayed, and in place of each other one those that were written for it, in their order,
/// each with its sequence number and its words. Each block of it is one of this control's language.
pub fn what_plain_writes_reads()
    ensures { (dialect : Dialect) (forms : FormSettings) (text out : List ℕ) → plain_of dialect forms text ≡ Ok out
        → IsWritten dialect forms text out }
{}

/// What is written is written out as itself, byte for byte.
pub fn plain_is_idempotent()
    ensures { (dialect : Dialect) (forms : FormSettings) (text out : List ℕ) → plain_of dialect forms text ≡ Ok out
        → plain_of dialect forms out ≡ Ok out }
{}
