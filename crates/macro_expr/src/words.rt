//! The words of macro expressions and statements at the head of a text: keywords, operators,
//! functions, and runs of letters or digits. reading.rt, statements.rt and limits.rt read with it;
//! laws of the crates above speak of `Keyword` and `Rank`. Each table of words stands in specs/Words
//! too.
ghost use Rattle.std.specs.Prelude.{◌≡◌, ◌≤◌, ◌==◌, not, length, take, drop, position, unwrap_or, IfSome};
ghost use Rattle.std.specs.Option.{option_map};
ghost use Rattle.std.specs.Char.{is_ascii_digit};
ghost use Rattle.nc_number.specs.Literals.{significant};
ghost use Rattle.macro_expr.specs.Words.{text_behind, operator, relation, sign, function_word, function_of, keyword, loop_word, loop_of, is_letter, is_number_byte, run, behind_run, begins};

use crate::tree::{Fun, Op, Rel};

/// The word that begins a statement other than an assignment.
#[derive(Clone, Copy, Debug, PartialEq, Eq)]
pub enum Keyword {
    /// Before a condition, and then a jump or an assignment.
    If,
    /// Before a condition, and then the DO of a loop.
    While,
    /// Before the target of a jump.
    Goto,
    /// Before the number of a loop that begins.
    Do,
    /// Before the number of a loop that ends.
    End,
}

/// How tightly an operator binds: products before sums.
#[derive(Clone, Copy, Debug, PartialEq, Eq)]
pub enum Rank {
    /// `*`, `/`, AND and MOD.
    Product,
    /// `+`, `-`, OR and XOR.
    Sum,
}

/// What stands after the word, if the text begins with it.
pub(crate) fn behind<'a>(text: &'a [u8], word: &[u8]) -> Option<&'a [u8]>
    ensures { option_map (λ rest. rest.now) result ≡ text_behind word.now text.now }
{
    text.strip_prefix(word)
}

// A table of words: the meaning of the first one with which the text begins, and what stands behind
// it.
macro_rules! first_word {
    ($text:ident: $($word:literal $meaning:expr),+) => {{
        $(if let Some(rest) = behind($text, $word) {
            return Some(($meaning, rest));
        })+
        None
    }};
}

/// The operator of that rank with which the text begins, and what stands behind it.
#[tactic(auto, unfolding(crate::specs::Words::operator))]
pub(crate) fn operator(rank: Rank, text: &[u8]) -> Option<(Op, &[u8])>
    ensures { option_map (λ found. (found.0, found.1.now)) result ≡ operator rank text.now }
{
    match rank {
        Rank::Product =>
            first_word!(text: b"*" Op::Mul, b"/" Op::Div, b"AND" Op::BitAnd, b"MOD" Op::Modulo),
        Rank::Sum =>
            first_word!(text: b"+" Op::Add, b"-" Op::Sub, b"OR" Op::BitOr, b"XOR" Op::BitXor),
    }
}

/// The relation with which the text begins, and what stands behind it.
#[tactic(auto, unfolding(crate::specs::Words::relation))]
pub(crate) fn relation(text: &[u8]) -> Option<(Rel, &[u8])>
    ensures { option_map (λ found. (found.0, found.1.now)) result ≡ relation text.now }
{
    first_word!(text: b"EQ" Rel::Eq, b"NE" Rel::Ne, b"GT" Rel::Gt, b"GE" Rel::Ge, b"LT" Rel::Lt, b"LE" Rel::Le)
}

/// The sign with which the text begins, `true` for minus, and what stands behind it.
#[tactic(auto, unfolding(crate::specs::Words::sign))]
pub(crate) fn sign(text: &[u8]) -> Option<(bool, &[u8])>
    ensures { option_map (λ found. (found.0, found.1.now)) result ≡ sign text.now }
{
    first_word!(text: b"+" false, b"-" true)
}

/// The function whose name begins the text, and what stands behind it.
#[tactic(auto, unfolding(crate::specs::Words::function_word))]
fn function_word(text: &[u8]) -> Option<(Fun, &[u8])>
    ensures { option_map (λ found. (found.0, found.1.now)) result ≡ function_word text.now }
{
    first_word!(text: b"SQRT" Fun::Sqrt, b"ABS" Fun::Abs, b"FIX" Fun::Fix, b"FUP" Fun::Fup, b"ROUND" Fun::Round)
}

/// The function of this name, if there is one.
#[tactic(auto, unfolding(crate::specs::Words::function_of))]
pub(crate) fn function_of(name: &[u8]) -> Option<Fun>
    ensures { result ≡ function_of name.now }
{
    let (function, rest) = function_word(name)?;
    if rest.is_empty() {
        Some(function)
    } else {
        None
    }
}

/// The word that begins a statement, and what stands behind it.
#[tactic(auto, unfolding(crate::specs::Words::keyword))]
pub(crate) fn leading_keyword(text: &[u8]) -> Option<(Keyword, &[u8])>
    ensures { option_map (λ found. (found.0, found.1.now)) result ≡ keyword text.now }
{
    first_word!(text: b"IF" Keyword::If, b"WHILE" Keyword::While, b"GOTO" Keyword::Goto,
        b"DO" Keyword::Do, b"END" Keyword::End)
}

/// The loop number with which the text begins, and what stands behind it.
#[tactic(auto, unfolding(crate::specs::Words::loop_word))]
fn loop_word(text: &[u8]) -> Option<(u8, &[u8])>
    ensures { option_map (λ found. (found.0, found.1.now)) result ≡ loop_word text.now }
{
    first_word!(text: b"1" 1, b"2" 2, b"3" 3)
}

/// The number of a loop that these digits write, if it is 1, 2 or 3 by one digit alone.
#[tactic(auto, unfolding(crate::specs::Words::loop_of))]
pub(crate) fn loop_of(number: &[u8]) -> Option<u8>
    ensures { result ≡ loop_of number.now }
{
    let (number, rest) = loop_word(number)?;
    if rest.is_empty() { Some(number) } else { None }
}

/// Whether the text begins with a digit.
pub(crate) fn begins_with_digit(text: &[u8]) -> bool
    ensures { result ≡ begins is_ascii_digit text.now }
{
    match text {
        [b, ..] => b.is_ascii_digit(),
        [] => false,
    }
}

/// The place of the first byte that is no digit.
fn first_no_digit(text: &[u8]) -> Option<usize>
    ensures { result ≡ position (λ b. not (is_ascii_digit b)) text.now }
{
    text.iter().position(|b| !b.is_ascii_digit())
}

/// The place of the first byte that is neither a digit nor a point.
fn first_no_number_byte(text: &[u8]) -> Option<usize>
    ensures { result ≡ position (λ b. not (is_number_byte b)) text.now }
{
    text.iter()
        .position(|b| !(b.is_ascii_digit() || *b == b'.'))
}

/// The place of the first byte that is no upper case letter.
fn first_no_letter(text: &[u8]) -> Option<usize>
    ensures { result ≡ position (λ b. not (is_letter b)) text.now }
{
    text.iter().position(|b| !(*b >= b'A' && *b <= b'Z'))
}

/// The text before the place, and from the place on. Without a place, all of it is before.
fn split(text: &[u8], at: Option<usize>) -> (&[u8], &[u8])
    requires { IfSome at (λ at. at ≤ length text.now) }
    ensures before { result.0.now ≡ take (unwrap_or at (length text.now)) text.now }
    ensures behind { result.1.now ≡ drop (unwrap_or at (length text.now)) text.now }
{
    match at {
        Some(at) => text.split_at(at),
        None => (text, &[]),
    }
}

/// The digits at the head, and what stands behind them.
pub(crate) fn digits(text: &[u8]) -> (&[u8], &[u8])
    ensures run { result.0.now ≡ run is_ascii_digit text.now }
    ensures rest { result.1.now ≡ behind_run is_ascii_digit text.now }
{
    split(text, first_no_digit(text))
}

/// The digits and points at the head, and what stands behind them.
pub(crate) fn number_bytes(text: &[u8]) -> (&[u8], &[u8])
    ensures run { result.0.now ≡ run is_number_byte text.now }
    ensures rest { result.1.now ≡ behind_run is_number_byte text.now }
{
    split(text, first_no_number_byte(text))
}

/// The letters at the head, and what stands behind them.
pub(crate) fn letters(text: &[u8]) -> (&[u8], &[u8])
    ensures run { result.0.now ≡ run is_letter text.now }
    ensures rest { result.1.now ≡ behind_run is_letter text.now }
{
    split(text, first_no_letter(text))
}

/// The place of the first digit that is not 0.
fn first_significant(digits: &[u8]) -> Option<usize>
    ensures { result ≡ position (λ d. not (d == 48)) digits.now }
{
    digits.iter().position(|d| *d != b'0')
}

/// The digits without the zeros that they begin with.
pub(crate) fn significant(digits: &[u8]) -> &[u8]
    ensures { result.now ≡ significant digits.now }
{
    let (_, rest) = split(digits, first_significant(digits));
    rest
}
