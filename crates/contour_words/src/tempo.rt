//! The feed and the speed that a block sets.
ghost use Rattle.std.specs.Prelude.{◌≡◌, ◌&&◌, is_none};
ghost use Rattle.contour_words.specs.Tempos.{feed_cause, speed_cause, tempo_cause, tempo_of};

use cycle_words::{count_said, first_cause, is_said, value_said};
use nc_number::Value;
use nc_text::Word;
use plain_form::PlainCause;

/// The feed and the speed that a block sets, if it sets any.
#[derive(Clone, Copy, Debug, PartialEq, Eq)]
pub struct Tempo {
    /// The feed, as F says it.
    pub feed: Option<Value>,
    /// The speed of the spindle, as S says it.
    pub speed: Option<Value>,
}

/// That F is not above 0.
fn feed_cause(words: &[Word]) -> Option<PlainCause>
    ensures { result ≡ feed_cause words.now }
{
    match value_said(words, b'F') {
        Some(feed) => {
            if feed.micro() <= 0 {
                Some(PlainCause::Range(b'F'))
            } else {
                None
            }
        }
        None => None,
    }
}

/// That S is no whole number from 0 on.
fn speed_cause(words: &[Word]) -> Option<PlainCause>
    ensures { result ≡ speed_cause words.now }
{
    if is_said(words, b'S') && count_said(words, b'S').is_none() {
        Some(PlainCause::Range(b'S'))
    } else {
        None
    }
}

/// Why F or S is refused: F is not above 0, or S no whole number from 0 on.
pub fn tempo_cause(words: &[Word]) -> Option<PlainCause>
    ensures { result ≡ tempo_cause words.now }
{
    first_cause(feed_cause(words), speed_cause(words))
}

/// The feed and the speed that the words set.
pub fn tempo_of(words: &[Word]) -> Tempo
    ensures { result ≡ tempo_of words.now }
{
    Tempo {
        feed: value_said(words, b'F'),
        speed: value_said(words, b'S'),
    }
}
