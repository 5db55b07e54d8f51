//! What the first four blocks of a G71 form say: its start, its two G71, and the contour's first
//! block. form.rt makes a form of it; finish.rt reads the words of G70 with the same functions.
ghost use Rattle.std.specs.Prelude.{◌≡◌, ◌≤◌, IfSome, Some, option_map, unsigned_abs};
ghost use Rattle.nc_number.specs.declared.limits.TheConstants.{LONGEST_SAID};
ghost use Rattle.cycle_form.specs.Head.{natural_number, size_at, number_at, feed_at, cut_of, call_of, plain_words, first_of, head_of, head_at, IsSoundCall, IsSoundCut, IsSoundHead};

use crate::contour::is_numbered;
use crate::words::{is_code, length_at, literal_at, start_of};
use nc_number::{Point, Value};
use nc_text::{Block, Body, Word};

/// How a form cuts: lengths in 0.001 mm.
#[derive(Clone, Copy, Debug, PartialEq, Eq)]
pub struct Cut {
    /// How deep each pass cuts: a radius, above 0.
    pub depth: u64,
    /// How far the tool draws back after a pass, as a radius in X and along Z.
    pub retreat: u64,
}

/// Which contour a form calls, by the sequence numbers of its first and last block, and how:
/// allowances in 0.001 mm, and a feed.
#[derive(Clone, Copy, Debug, PartialEq, Eq)]
pub struct Call {
    /// The sequence number of the contour's first block.
    pub first: u32,
    /// The sequence number of its last block.
    pub last: u32,
    /// The allowance along X, a diameter.
    pub across: u64,
    /// The allowance along Z.
    pub along: u64,
    /// The feed of its cuts, above 0.
    pub feed: Value,
}

/// What the first four blocks of a form say.
#[derive(Clone, Copy, Debug, PartialEq, Eq)]
pub struct Head {
    /// Where the tool stands before the cycle, in 0.001 mm, X a diameter.
    pub start: Point,
    /// The first G71: depth and retreat.
    pub cut: Cut,
    /// The second G71: the contour that it calls, allowances and feed.
    pub call: Call,
    /// The contour's first point, at the Z of the start.
    pub first: Point,
}

/// The number, if it is not negative.
fn natural(n: i64) -> Option<u64>
    ensures { result ≡ natural_number n }
{
    if n < 0 { None } else { Some(n as u64) }
}

/// The length in 0.001 mm that the word at place i writes under this letter, if it is not negative.
#[tactic(auto, unfolding(crate::specs::Head::size_at))]
fn size_at(words: &[Word], i: usize, letter: u8) -> Option<u64>
    ensures size { result ≡ size_at words.now i letter }
    ensures near { IfSome result (λ n. n ≤ LONGEST_SAID) }
{
    let z = length_at(words, i, letter)?;
    natural(z)
}

/// The whole number from 0 on that the word at place i writes under this letter: it names a
/// sequence number.
#[tactic(auto, unfolding(crate::specs::Head::number_at))]
pub(crate) fn number_at(words: &[Word], i: usize, letter: u8) -> Option<u32>
    ensures { result ≡ number_at words.now i letter }
{
    let literal = literal_at(words, i, letter)?;
    let n = literal.whole()?;
    if n < 0 { None } else { Some(n as u32) }
}

/// The feed above 0 that the word at place i writes under this letter.
#[tactic(auto, unfolding(crate::specs::Head::feed_at))]
pub(crate) fn feed_at(words: &[Word], i: usize, letter: u8) -> Option<Value>
    ensures { result ≡ feed_at words.now i letter }
{
    let literal = literal_at(words, i, letter)?;
    let feed = literal.value();
    if 0 < feed.micro() { Some(feed) } else { None }
}

/// The cut of G71 U R: these words in this order and no others; the depth is above 0.
#[tactic(auto, unfolding(crate::specs::Head::cut_of))]
fn cut_of(words: &[Word]) -> Option<Cut>
    ensures cut { result ≡ cut_of words.now }
    ensures sound { IfSome result IsSoundCut }
{
    if words.len() != 3 || !is_code(71, literal_at(words, 0, b'G')) {
        return None;
    }
    let depth = size_at(words, 1, b'U')?;
    let retreat = size_at(words, 2, b'R')?;
    if 0 < depth {
        Some(Cut { depth, retreat })
    } else {
        None
    }
}

/// The call of G71 P Q U W F: these words in this order and no others.
#[tactic(auto, unfolding(crate::specs::Head::call_of))]
fn call_of(words: &[Word]) -> Option<Call>
    ensures call { result ≡ call_of words.now }
    ensures sound { IfSome result IsSoundCall }
{
    if words.len() != 6 || !is_code(71, literal_at(words, 0, b'G')) {
        return None;
    }
    let first = number_at(words, 1, b'P')?;
    let last = number_at(words, 2, b'Q')?;
    let across = size_at(words, 3, b'U')?;
    let along = size_at(words, 4, b'W')?;
    let feed = feed_at(words, 5, b'F')?;
    Some(Call {
        first,
        last,
        across,
        along,
        feed,
    })
}

/// The words of a block that has no sequence number and is no statement.
#[tactic(auto, unfolding(crate::specs::Head::plain_words))]
pub(crate) fn plain_words(block: &Block) -> Option<&[Word]>
    ensures { option_map (λ words. words.now) result ≡ plain_words block.now }
{
    if block.sequence.is_some() {
        return None;
    }
    match &block.body {
        Body::Words(words) => Some(words.as_slice()),
        Body::Statement(_) => None,
    }
}

/// The X, in 0.001 mm, of the contour's first block: G00 to an X, under the number that P names.
#[tactic(auto, unfolding(crate::specs::Head::first_of))]
fn first_of(number: u32, block: &Block) -> Option<i64>
    ensures first { result ≡ first_of number block.now }
    ensures near { IfSome result (λ n. unsigned_abs n ≤ LONGEST_SAID) }
{
    let Body::Words(words) = &block.body else {
        return None;
    };
    let words = words.as_slice();
    if !is_numbered(number, block.sequence)
        || words.len() != 2
        || !is_code(0, literal_at(words, 0, b'G'))
    {
        return None;
    }
    length_at(words, 1, b'X')
}

/// What these four blocks say, if they are the first of a form. The contour begins at the Z of the
/// start.
#[tactic(auto, unfolding(crate::specs::Head::head_of))]
fn head_of(a: &Block, b: &Block, c: &Block, d: &Block) -> Option<Head>
    ensures head { result ≡ head_of a.now b.now c.now d.now }
    ensures sound { IfSome result IsSoundHead }
{
    let a_words = plain_words(a)?;
    let start = start_of(a_words)?;
    let b_words = plain_words(b)?;
    let cut = cut_of(b_words)?;
    let c_words = plain_words(c)?;
    let call = call_of(c_words)?;
    let x = first_of(call.first, d)?;
    Some(Head {
        start,
        cut,
        call,
        first: Point { x, z: start.z },
    })
}

/// What a block and the three blocks after it say, if they are the first four of a form.
pub(crate) fn head_at(a: &Block, rest: &[Block]) -> Option<Head>
    ensures head { result ≡ head_at a.now rest.now }
    ensures sound { IfSome result IsSoundHead }
{
    let (b, rest) = rest.split_first()?;
    let (c, rest) = rest.split_first()?;
    let (d, _) = rest.split_first()?;
    head_of(a, b, c, d)
}
