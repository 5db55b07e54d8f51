//! Words that say a thing twice.
ghost use Rattle.std.specs.Prelude.{◌≡◌};
ghost use Rattle.line_words.specs.Lines.{twice_of};

use cycle_words::is_said;
use nc_text::Word;
use plain_form::PlainCause;

/// That there is a word of the second letter beside one of the first.
pub fn twice_of(words: &[Word], one: u8, other: u8) -> Option<PlainCause>
    ensures { result ≡ twice_of one other words.now }
{
    if is_said(words, one) && is_said(words, other) {
        Some(PlainCause::Unexpected(other))
    } else {
        None
    }
}
