//! Whether a block says what is due, in any line and at any places of it.
ghost use Rattle.std.specs.Prelude.{◌≡◌, slice_get};
ghost use Rattle.written_blocks.specs.Saying.{is_same_word, is_found_word, are_same_words, is_same_text, is_same_body, is_same_number, says};

use nc_text::{Block, Body, Word};

/// Whether two words say the same.
fn is_same_word(own: &Word, other: &Word) -> bool
    ensures { result ≡ is_same_word own.now other.now }
{
    own.letter == other.letter && own.text.as_slice() == other.text.as_slice()
}

/// Whether the word in this place says the same as this one.
fn is_at(words: &[Word], place: usize, other: &Word) -> bool
    ensures { result ≡ is_found_word (slice_get words.now place) other.now }
{
    match words.get(place) {
        Some(own) => is_same_word(own, other),
        None => false,
    }
}

/// Whether words say the same, one after the other.
fn are_same_words(own: &[Word], others: &[Word]) -> bool
    ensures { result ≡ are_same_words own.now others.now }
{
    if own.len() != others.len() {
        return false;
    }
    for (place, other) in others.iter().enumerate() {
        if !is_at(own, place, other) {
            return false;
        }
    }
    true
}

/// Whether two texts are the same.
fn is_same_text(own: &[u8], other: &[u8]) -> bool
    ensures { result ≡ is_same_text own.now other.now }
{
    own == other
}

/// Whether bodies say the same.
fn is_same_body(own: &Body, other: &Body) -> bool
    ensures { result ≡ is_same_body own.now other.now }
{
    match own {
        Body::Words(words) => match other {
            Body::Words(others) => are_same_words(words.as_slice(), others.as_slice()),
            Body::Statement(_) => false,
        },
        Body::Statement(text) => match other {
            Body::Words(_) => false,
            Body::Statement(others) => is_same_text(text.as_slice(), others.as_slice()),
        },
    }
}

/// Whether sequence numbers are the same.
fn is_same_number(own: Option<u32>, other: Option<u32>) -> bool
    ensures { result ≡ is_same_number own other }
{
    match own {
        Some(number) => match other {
            Some(another) => number == another,
            None => false,
        },
        None => other.is_none(),
    }
}

/// Whether a block has this sequence number and says this.
pub(crate) fn says(block: &Block, sequence: Option<u32>, body: &Body) -> bool
    ensures { result ≡ says block.now sequence body.now }
{
    is_same_number(block.sequence, sequence) && is_same_body(&block.body, body)
}
