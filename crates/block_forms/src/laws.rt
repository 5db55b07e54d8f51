//! Laws of refused blocks. Each is the contract of a function that does nothing: who calls it has
//! the law. No crate calls them: they say, apart from any order of tests, what the definitions in
//! specs answer.
ghost use Rattle.std.specs.Prelude.{◌≡◌, ◌↔◌, ℕ, List};
ghost use Rattle.nc_number.specs.declared.cause.Cause.{Cause};
ghost use Rattle.line_text.specs.declared.body.Word.{Word};
ghost use Rattle.block_words.specs.declared.dialect.Dialect.{Dialect};
ghost use Rattle.block_words.specs.declared.word.FlowWord.{FlowWord};
ghost use Rattle.block_forms.specs.Refusals.{Refuses, IsLeast, refusal_of};
ghost use Rattle.block_forms.specs.Forms.{all_words, words_or_refusal};
ghost use Rattle.block_forms.specs.Texts.{RefusesText, IsLeastOfText};

use macro_limits::reading_stops_for_a_cause;

/// Of the refusals that hold of a block of words the one of the least number is answered, and the
/// block is accepted exactly if none holds.
pub fn the_least_refusal_is_answered()
    ensures least { (dialect : Dialect) (words : List FlowWord) (cause : Cause)
        → (refusal_of dialect words ≡ Some cause) ↔ IsLeast dialect words cause }
    ensures none { (dialect : Dialect) (words : List FlowWord)
        → (refusal_of dialect words ≡ None) ↔ ((cause : Cause) → ¬ (Refuses dialect words cause)) }
{}

/// Of the refusals that hold of the text of a block of words the one of the least number is
/// answered, and of an accepted text none holds: of words that don't read, of its variables, and of
/// what its words say if each reads.
pub fn the_least_refusal_of_a_text_is_answered()
    ensures least { (dialect : Dialect) (texts : List Word) (number : ℕ)
        → (words_or_refusal dialect texts ≡ Err number) ↔ IsLeastOfText dialect texts number }
    ensures none { (dialect : Dialect) (texts : List Word) (words : List FlowWord)
        → words_or_refusal dialect texts ≡ Ok words
        → (all_words texts ≡ Ok words) × ((number : ℕ) → ¬ (RefusesText dialect texts number)) }
{
    reading_stops_for_a_cause();
}
