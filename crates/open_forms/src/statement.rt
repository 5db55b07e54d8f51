//! What a statement does to the order of blocks, of which neither the condition nor what it assigns
//! is looked into. For this crate alone: reading.rt calls `control_of_statement`; the definition is
//! specs/Statements.antt.
ghost use Rattle.std.specs.Prelude.{◌≡◌};
ghost use Rattle.std.specs.Option.{option_map};
ghost use Rattle.nc_number.specs.Literals.{all_digits};
ghost use Rattle.macro_expr.specs.Words.{text_behind};
ghost use Rattle.open_forms.specs.Statements.{assignment, begins, is_own_m, hides_word, behind_close, behind_condition, behind_if, behind_while, is_computed, number_of_loop, target, control_of_statement};

use block_order::Control;
use nc_number::{Cause, LAST_SEQUENCE, is_literal, parse_word};

/// What stands behind the word, if the text begins with it.
fn behind<'a>(text: &'a [u8], word: &[u8]) -> Option<&'a [u8]>
    ensures { option_map (λ rest. rest.now) result ≡ text_behind word.now text.now }
{
    text.strip_prefix(word)
}

/// The text behind the bracket that closes the one before the text, if one does.
#[tactic(auto, unfolding(crate::specs::Statements::behind_close))]
fn behind_close(text: &[u8]) -> Option<&[u8]>
    ensures { option_map (λ rest. rest.now) result ≡ behind_close 0 text.now }
{
    let mut more: usize = 0;
    let mut rest = text;
    while let [b, behind @ ..] = rest {
        rest = behind;
        match *b {
            b'[' => more += 1,
            b']' if more == 0 => return Some(rest),
            b']' => more -= 1,
            _ => {}
        }
    }
    None
}

/// The text behind a condition, if the text begins with a bracket and it is closed.
fn behind_condition(text: &[u8]) -> Option<&[u8]>
    ensures { option_map (λ rest. rest.now) result ≡ behind_condition text.now }
{
    match text {
        [b'[', rest @ ..] => behind_close(rest),
        _ => None,
    }
}

/// Whether the text begins with the word.
fn begins(text: &[u8], word: &[u8]) -> bool
    ensures { result ≡ begins word.now text.now }
{
    behind(text, word).is_some()
}

/// Whether the M behind these two bytes and before this text is that of MOD or PRM.
fn is_own_m(two: u8, one: u8, rest: &[u8]) -> bool
    ensures { result ≡ is_own_m two one rest.now }
{
    two == b'P' && one == b'R' || begins(rest, b"OD")
}

/// Whether a G or M word may hide in the text: a G, or an M that is not that of MOD or PRM.
#[tactic(auto, unfolding(crate::specs::Statements::hides_word))]
fn hides_word(text: &[u8]) -> bool
    ensures { result ≡ hides_word 0 0 text.now }
{
    let mut two = 0;
    let mut one = 0;
    let mut rest = text;
    while let [b, behind @ ..] = rest {
        if *b == b'G' || (*b == b'M' && !is_own_m(two, one, behind)) {
            return true;
        }
        two = one;
        one = *b;
        rest = behind;
    }
    false
}

/// The control of an assignment, whose value is not looked into: the next block, unless a word may
/// hide in it. The name stands for what was assigned.
fn assigned(text: &[u8]) -> Result<Control, Cause>
    ensures { result ≡ assignment text.now }
{
    if hides_word(text) {
        Err(Cause::BadExpression)
    } else {
        Ok(Control::Next)
    }
}

/// Whether the text has digits alone, as the target of a jump must: no sign and no point.
fn are_digits(text: &[u8]) -> bool
    ensures { result ≡ all_digits text.now }
{
    text.iter().all(|b| b.is_ascii_digit())
}

/// Whether the target of a jump is a variable or an expression, and so may be any number.
fn is_computed(text: &[u8]) -> bool
    ensures { result ≡ is_computed text.now }
{
    matches!(text, [b'#' | b'[', ..])
}

/// The control of a jump to the target that the text writes, or its refusal.
fn jump_to(text: &[u8]) -> Result<Control, Cause>
    ensures { result ≡ target text.now }
{
    if is_computed(text) {
        return Ok(Control::Goto(None));
    }
    if !is_literal(text) || !are_digits(text) {
        return Err(Cause::BadExpression);
    }
    match parse_word(text) {
        Ok(literal) => match literal.whole() {
            Some(n) if n >= 0 => {
                if n <= LAST_SEQUENCE as i64 {
                    Ok(Control::Goto(Some(n as u32)))
                } else {
                    Err(Cause::WordRange)
                }
            }
            _ => Err(Cause::BadExpression),
        },
        Err(_) => Err(Cause::TooManyDigits),
    }
}

/// The number of a loop that the text writes: 1, 2 or 3.
fn loop_name(text: &[u8]) -> Option<u8>
    ensures do_is { result ≡ number_of_loop text.now }
{
    match text {
        [b @ b'1'..=b'3'] => Some(*b - b'0'),
        _ => None,
    }
}

/// The control of an IF by what stands behind its condition; refused if it has none.
fn behind_if(rest: Option<&[u8]>) -> Result<Control, Cause>
    ensures { result ≡ behind_if (option_map (λ text. text.now) rest.entry) }
{
    let Some(rest) = rest else {
        return Err(Cause::BadCondition);
    };
    if let Some(to) = behind(rest, b"GOTO") {
        return jump_to(to);
    }
    match behind(rest, b"THEN#") {
        Some(value) => assigned(value),
        None => Err(Cause::BadExpression),
    }
}

/// The control of a WHILE by what stands behind its condition; refused if it has none.
fn behind_while(rest: Option<&[u8]>) -> Result<Control, Cause>
    ensures { result ≡ behind_while (option_map (λ text. text.now) rest.entry) }
{
    let Some(rest) = rest else {
        return Err(Cause::BadCondition);
    };
    match behind(rest, b"DO") {
        Some(name) => match loop_name(name) {
            Some(name) => Ok(Control::While(name)),
            None => Err(Cause::BadLoopNumber),
        },
        None => Err(Cause::BadExpression),
    }
}

/// What a statement does to the order of blocks, or its refusal: 5, 20, 22, 24 or 64.
pub(crate) fn control_of_statement(text: &[u8]) -> Result<Control, Cause>
    ensures { result ≡ control_of_statement text.now }
{
    if let Some(value) = behind(text, b"#") {
        return assigned(value);
    }
    if let Some(to) = behind(text, b"GOTO") {
        return jump_to(to);
    }
    if let Some(rest) = behind(text, b"IF") {
        return behind_if(behind_condition(rest));
    }
    if let Some(rest) = behind(text, b"WHILE") {
        return behind_while(behind_condition(rest));
    }
    if let Some(name) = behind(text, b"DO") {
        return match loop_name(name) {
            Some(name) => Ok(Control::Do(name)),
            None => Err(Cause::BadLoopNumber),
        };
    }
    match behind(text, b"END") {
        Some(name) => match loop_name(name) {
            Some(name) => Ok(Control::EndLoop(name)),
            None => Err(Cause::BadLoopNumber),
        },
        None => Err(Cause::BadExpression),
    }
}
