//! The G and M codes of a block, as numbers alone, and what they make the block. Words by their
//! letters are in letters.rt. For this crate alone: controls.rt and refusals.rt ask for them.
ghost use Rattle.std.specs.Prelude.{◌≡◌};
ghost use Rattle.block_words.specs.Codes.{first_waiting};
ghost use Rattle.open_forms.specs.Codes.{is_g, has_g, leads_elsewhere, is_refused_g, m_codes, has_m, has_wait, is_refused_m, is_lone_m, is_roughing, has_contour, cycle_of, role_of};

use crate::letters::{has, number, written};
use crate::role::Role;
use block_forms::{Dialect, is_one_of};
use nc_text::Word;

/// Whether a G code of these millionths is the one of so many.
fn is_g(micro: u32, own: i64) -> bool
    ensures { result ≡ is_g micro own }
{
    own == i64::from(micro)
}

/// Whether the block has a G word of so many millionths.
pub(crate) fn has_g(words: &[Word], micro: u32) -> bool
    ensures { result ≡ has_g micro words.now }
{
    words
        .iter()
        .filter(|word| is_one_of(b"G", word.letter))
        .filter_map(|word| written(word))
        .any(|own| is_g(micro, own))
}

/// Whether a G code of so many millionths may call a program or wait: G66, G66.1 and all others
/// between G65 and G67, which are taken for modal calls; G68, G69, at which both paths wait; those
/// from G72.1 to G72.2, copies that call a program.
fn leads_elsewhere(micro: u64) -> bool
    ensures { result ≡ leads_elsewhere micro }
{
    (65_000_000 < micro && micro < 67_000_000)
        || (micro == 68_000_000 || micro == 69_000_000)
        || (72_100_000 <= micro && micro <= 72_200_000)
}

/// Whether the G code, in millionths, may call or wait, or is below 0 and so none.
pub(crate) fn is_refused_g(micro: i64) -> bool
    ensures { result ≡ is_refused_g micro }
{
    micro < 0 || leads_elsewhere(micro as u64)
}

/// Whether the block has an M word of this code.
pub(crate) fn has_m(words: &[Word], code: u32) -> bool
    ensures { result ≡ has_m code words.now }
{
    words
        .iter()
        .filter(|word| is_one_of(b"M", word.letter))
        .filter_map(|word| number(word))
        .any(|own| own == code)
}

/// Whether the block has a waiting M code.
pub(crate) fn has_wait(words: &[Word], dialect: Dialect) -> bool
    ensures { result ≡ has_wait dialect words.now }
{
    words
        .iter()
        .filter(|word| is_one_of(b"M", word.letter))
        .filter_map(|word| number(word))
        .any(|code| dialect.is_waiting(code))
}

/// The first waiting M code of the block.
fn find_waiting(words: &[Word], dialect: Dialect) -> Option<u32>
    ensures { result ≡ first_waiting dialect (m_codes words.now) }
{
    words
        .iter()
        .filter(|word| is_one_of(b"M", word.letter))
        .filter_map(|word| number(word))
        .find(|code| dialect.is_waiting(*code))
}

/// The first waiting M code of the block. It fits 16 bits, since it is none above the last waiting
/// code.
#[tactic(auto, using(block_words::proofs::Waiting::first_waiting_is_below))]
pub(crate) fn first_waiting(words: &[Word], dialect: Dialect) -> Option<u16>
    ensures { result ≡ first_waiting dialect (m_codes words.now) }
{
    match find_waiting(words, dialect) {
        Some(code) => Some(code as u16),
        None => None,
    }
}

/// Whether the M code is no wait of the settings, and an interrupt, M96 or M97, or the call of a
/// program of another memory, M198.
pub(crate) fn is_refused_m(dialect: Dialect, code: u32) -> bool
    ensures { result ≡ is_refused_m dialect code }
{
    !dialect.is_waiting(code) && (code == 96 || code == 97 || code == 198)
}

/// Whether no other M code may stand beside this one: an end, a call or a return.
pub(crate) fn is_lone_m(code: u32) -> bool
    ensures { result ≡ is_lone_m code }
{
    (code == 2 || code == 30) || (code == 98 || code == 99)
}

/// Whether the block has G71, G72 or G73.
fn is_roughing(words: &[Word]) -> bool
    ensures { result ≡ is_roughing words.now }
{
    has_g(words, 71_000_000) || has_g(words, 72_000_000) || has_g(words, 73_000_000)
}

/// Whether the block has a P or a Q, which in a cycle name its contour. The first block of a cycle
/// says depths alone.
fn has_contour(words: &[Word]) -> bool
    ensures { result ≡ has_contour words.now }
{
    has(words, b"PQ")
}

/// The role of a block that neither calls, returns, waits nor ends: a cycle along a contour, or
/// none.
pub(crate) fn cycle_of(words: &[Word]) -> Role
    ensures { result ≡ cycle_of words.now }
{
    if has_g(words, 70_000_000) {
        Role::Finishing
    } else if has_contour(words) && is_roughing(words) {
        Role::Roughing
    } else {
        Role::Other
    }
}

/// What the block is there for, which decides where it leads.
pub(crate) fn role_of(dialect: Dialect, words: &[Word]) -> Role
    ensures { result ≡ role_of dialect words.now }
{
    if has_g(words, 65_000_000) {
        Role::MacroCall
    } else if has_m(words, 98) {
        Role::Subprogram
    } else if has_m(words, 99) {
        Role::Return
    } else if has_wait(words, dialect) {
        Role::Wait
    } else if has_m(words, 2) || has_m(words, 30) {
        Role::End
    } else {
        cycle_of(words)
    }
}
