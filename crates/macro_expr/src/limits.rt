//! The limits of a macro expression or statement (digits of a number, brackets, variables), and the
//! text as it is read, without blanks and comments. parse.rt asks them of a text.
ghost use Rattle.std.specs.Prelude.{◌≡◌, ◌==◌, nat_eq, false, IfOk};
ghost use Rattle.std.specs.Char.{is_ascii_digit};
ghost use Rattle.macro_expr.specs.Limits.{clean_text, ends, is_loop_head, are_too_many, begins_long, has_long_number, has_deep_brackets, has_many_variables};

use crate::words::{begins_with_digit, digits, significant};
use nc_number::{MOST_BRACKETS, MOST_READS, NoMemory};
use std::alloc::Global;

/// The text without spaces, tabs and comments, and in upper case. A comment that is open at the end
/// leaves its bracket, which is no part of any expression.
pub(crate) fn cleaned(alloc: Global, text: &[u8]) -> Result<Vec<u8>, NoMemory>
    ensures { IfOk result (λ clean. clean.items ≡ clean_text false text.now) }
{
    let mut clean = Vec::new(alloc);
    let mut comment = false;
    for b in text {
        if comment {
            comment = *b != b')';
        } else if *b == b'(' {
            comment = true;
        } else if *b != b' ' && *b != b'\t' {
            clean.push(b.to_ascii_uppercase())?;
        }
    }
    if comment {
        clean.push(b'(')?;
    }
    Ok(clean)
}

/// Whether the last byte is a digit.
fn ends_with_digit(text: &[u8]) -> bool
    ensures { result ≡ ends is_ascii_digit text.now }
{
    !text.is_empty() && text[text.len() - 1].is_ascii_digit()
}

/// Whether the last byte is a point.
fn ends_with_point(text: &[u8]) -> bool
    ensures { result ≡ ends (λ b. b == 46) text.now }
{
    !text.is_empty() && text[text.len() - 1] == b'.'
}

/// Whether a text is all that may stand before the number of a loop: DO, END, or a WHILE with its
/// condition and DO.
fn is_loop_head(before: &[u8]) -> bool
    ensures { result ≡ is_loop_head before.now }
{
    before == b"DO".as_slice()
        || before == b"END".as_slice()
        || before.starts_with(b"WHILE") && before.ends_with(b"]DO")
}

/// Whether these digits, after the text `before`, are more than a number may have: 6 after a point,
/// else 8, zeros in front not counted. The digits of a loop's number are never too many.
fn are_too_many(before: &[u8], number: &[u8]) -> bool
    ensures { result ≡ are_too_many before.now number.now }
{
    if ends_with_point(before) {
        return number.len() > 6;
    }
    if is_loop_head(before) {
        return false;
    }
    significant(number).len() > 8
}

/// Whether a number with too many digits begins where `before` ends and `text` begins.
fn begins_long(before: &[u8], text: &[u8]) -> bool
    ensures { result ≡ begins_long before.now text.now }
{
    if !begins_with_digit(text) || ends_with_digit(before) {
        return false;
    }
    let (number, _) = digits(text);
    are_too_many(before, number)
}

/// Whether a number in the text has too many digits.
#[tactic(auto, unfolding(crate::specs::Limits::has_long_number))]
pub(crate) fn has_long_number(text: &[u8]) -> bool
    ensures { result ≡ has_long_number text.now }
{
    for i in 0..text.len() {
        let (before, rest) = text.split_at(i);
        if begins_long(before, rest) {
            return true;
        }
    }
    false
}

/// Whether more than five square brackets are open at once; one that closes nothing counts for
/// nothing.
#[tactic(auto, unfolding(crate::specs::Limits::has_deep_brackets))]
pub(crate) fn has_deep_brackets(text: &[u8]) -> bool
    ensures { result ≡ has_deep_brackets text.now }
{
    let mut opened = 0u32;
    for b in text {
        match b {
            b'[' if opened == MOST_BRACKETS => return true,
            b'[' => opened += 1,
            b']' if opened > 0 => opened -= 1,
            _ => {}
        }
    }
    false
}

/// Whether the text names more variables than the 32 that a block may read.
pub(crate) fn has_many_variables(text: &[u8]) -> bool
    ensures { result ≡ has_many_variables text.now }
{
    text.iter().filter(|b| **b == b'#').count() > MOST_READS
}
