//! The calls that rows of a table write: a name, and numbers behind it. orders.rt, places.rt and
//! texts.rt read their rows with it.

/// A call and its two numbers; a number that is not written is 0.
#[derive(Clone, Copy)]
pub(crate) struct Call<'a> {
    /// What is called, up to the first blank.
    pub(crate) name: &'a str,
    /// The first number, or 0.
    pub(crate) first: u16,
    /// The second number, or 0.
    pub(crate) second: u16,
}

/// The number that a word writes, behind a P or without one; 0 if it writes none.
pub(crate) fn number(word: Option<&str>) -> u16 {
    match word {
        Some(word) => word.strip_prefix('P').unwrap_or(word).parse().unwrap_or(0),
        None => 0,
    }
}

/// The call that a text writes.
pub(crate) fn call_of(text: &str) -> Call {
    let mut words = text.split(' ');
    let name = words.next().unwrap_or("");
    let first = number(words.next());
    let second = number(words.next());
    Call {
        name,
        first,
        second,
    }
}
