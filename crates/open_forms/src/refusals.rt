//! When a block of words is refused by the open reading, each refusal apart from the others. For
//! this crate alone: controls.rt asks for the least that holds. The definitions, of the same names,
//! are in specs/Refusals.antt.
ghost use Rattle.std.specs.Prelude.{◌≡◌, codes};
ghost use Rattle.std.specs.List.{list_any, list_all};
ghost use Rattle.block_words.specs.Words.{is_one_of};
ghost use Rattle.block_words.specs.Purposes.{names_both};
ghost use Rattle.block_forms.specs.Refusals.{is_macro_row, is_both, is_many};
ghost use Rattle.open_forms.specs.Words.{words_of, numbers_of, last_number};
ghost use Rattle.open_forms.specs.Codes.{g_values, m_codes, is_refused_g, is_refused_m, is_lone_m, role_of};
ghost use Rattle.open_forms.specs.Refusals.{fixed_letters, is_long, is_not_fixed, is_parameter, writes_parameters, row_of_word, is_no_row, is_beside_a_call, begins_macro_call, is_unknown_by, is_contour, is_crowded, is_unknown, waits_there, is_wait_not_alone, is_wait_of_others, has_two_m, takes_p, uses_p, is_one_contour, is_bad_call_by, is_in, are_in, is_in_range_by, is_out_of_range, refusal_of};

use crate::codes::{cycle_of, has_g, has_wait, is_lone_m, is_refused_g, is_refused_m};
use crate::letters::{count_of, has, has_computed, has_long, last_number, number, written};
use crate::role::Role;
use block_forms::{Dialect, is_one_of, row_of};
use code_tables::{CodeKind, Row, System};
use nc_number::{Cause, LARGEST_WHOLE, LAST_SEQUENCE};
use nc_text::Word;

/// G10, in millionths.
const SETTING: u32 = 10_000_000;

/// G65, in millionths.
const MACRO_CALL: u32 = 65_000_000;

/// The letters whose words must be written out: a computed G or M may be any code, and a computed N
/// or O any number.
fn fixed_letters(role: Role) -> &'static [u8]
    ensures { result.now ≡ fixed_letters role }
{
    match role {
        Role::MacroCall => b"GNOPL",
        Role::Subprogram | Role::Return => b"GNOMPL",
        Role::Roughing | Role::Finishing => b"GNOMPQ",
        Role::Wait | Role::End | Role::Other => b"GNOM",
    }
}

/// 54: whether a word that must be written out is computed, or the L of G10 is, which may write
/// parameters.
fn is_not_fixed(role: Role, dialect: Dialect, words: &[Word]) -> bool
    requires { role ≡ role_of dialect words.now }
    ensures { result ≡ is_not_fixed dialect words.now }
{
    has_computed(words, fixed_letters(role)) || (has_computed(words, b"L") && has_g(words, SETTING))
}

/// Whether a G10 with this L writes parameters: it does with 50 to 52.
fn is_parameter(kind: u32) -> bool
    ensures { result ≡ is_parameter kind }
{
    50 <= kind && kind <= 52
}

/// Whether the block writes parameters, by G10 L50 to L52.
fn writes_parameters(words: &[Word]) -> bool
    ensures { result ≡ writes_parameters words.now }
{
    names_parameters(words) && has_g(words, SETTING)
}

/// Whether an L word says 50 to 52. Without G10 this writes no parameters.
fn names_parameters(words: &[Word]) -> bool
    ensures { result ≡ list_any is_parameter (numbers_of (codes "L") words.now) }
{
    words
        .iter()
        .filter(|word| is_one_of(b"L", word.letter))
        .filter_map(|word| number(word))
        .any(|kind| is_parameter(kind))
}

/// The row of a G word that is written out, if the system has one.
fn row_of_word(system: System, word: &Word) -> Option<Row>
    ensures { result ≡ row_of_word system word.now }
{
    match number(word) {
        Some(code) => row_of(system, code),
        None => None,
    }
}

/// Whether the system has no row for the G word; for a computed code there is none either.
fn has_no_row(system: System, word: &Word) -> bool
    ensures { result ≡ is_no_row (row_of_word system word.now) }
{
    row_of_word(system, word).is_none()
}

/// Whether a G word has no row in the system's table: such a code may hide a call.
fn has_code_without_row(system: System, words: &[Word]) -> bool
    ensures { result ≡ list_any (λ word. is_no_row (row_of_word system word)) (words_of (codes "G") words.now) }
{
    words
        .iter()
        .filter(|word| is_one_of(b"G", word.letter))
        .any(|word| has_no_row(system, word))
}

/// Whether all words are of these letters.
fn are_of(words: &[Word], letters: &[u8]) -> bool
    ensures { result ≡ list_all (λ word. is_one_of letters.now word.letter) words.now }
{
    words.iter().all(|word| is_one_of(letters, word.letter))
}

/// Whether only G codes of the system, and letters that can't say more of a call, stand in the
/// block.
fn is_beside_a_call(system: System, words: &[Word]) -> bool
    ensures { result ≡ is_beside_a_call system words.now }
{
    are_of(words, b"XZUWIKRFSTNOMGPLABCEVY") && !has_code_without_row(system, words)
}

/// Whether it is the row of a macro call.
fn is_macro_row(row: Option<Row>) -> bool
    ensures { result ≡ is_macro_row row }
{
    match row {
        Some(row) => matches!(row.kind, CodeKind::MacroCall),
        None => false,
    }
}

/// Whether the first word is the G65, and no other is a G, N or O word.
fn begins_macro_call(system: System, words: &[Word]) -> bool
    ensures { result ≡ begins_macro_call system words.now }
{
    match words {
        [] => false,
        [first, rest @ ..] => {
            is_one_of(b"G", first.letter)
                && is_macro_row(row_of_word(system, first))
                && !has(rest, b"GNO")
        }
    }
}

/// Whether a G code that is written out may call or wait, or is none. It counts by its millionths:
/// G10.1 is another code than G10.
fn has_refused_g(words: &[Word]) -> bool
    ensures { result ≡ list_any is_refused_g (g_values words.now) }
{
    words
        .iter()
        .filter(|word| is_one_of(b"G", word.letter))
        .filter_map(|word| written(word))
        .any(|micro| is_refused_g(micro))
}

/// Whether an M code that is written out is an interrupt or a call of another memory. A computed
/// one is refused before, as not written out.
fn has_refused_m(dialect: Dialect, words: &[Word]) -> bool
    ensures { result ≡ list_any (is_refused_m dialect) (m_codes words.now) }
{
    words
        .iter()
        .filter(|word| is_one_of(b"M", word.letter))
        .filter_map(|word| number(word))
        .any(|code| is_refused_m(dialect, code))
}

/// Whether 56 holds by the role: a macro call does not begin with its G65; else a code may call or
/// wait in a way that is not known here, or the block writes parameters.
fn is_unknown_by(role: Role, dialect: Dialect, words: &[Word]) -> bool
    ensures { result ≡ is_unknown_by role dialect words.now }
{
    match role {
        Role::MacroCall => !begins_macro_call(dialect.system, words),
        _ => has_refused_g(words) || has_refused_m(dialect, words) || writes_parameters(words),
    }
}

/// Whether the P and Q of a block of this role name the lines of a contour.
fn is_contour(role: Role) -> bool
    ensures { result ≡ is_contour role }
{
    matches!(role, Role::Roughing | Role::Finishing)
}

/// Whether words beside a call or a return may say more of it, or a contour stands beside an end.
fn is_crowded(role: Role, system: System, words: &[Word]) -> bool
    ensures { result ≡ is_crowded role system words.now }
{
    match role {
        Role::Subprogram | Role::Return => !is_beside_a_call(system, words),
        Role::End => is_contour(cycle_of(words)),
        _ => false,
    }
}

/// 56: whether a code may lead elsewhere, or words may say more of a call.
fn is_unknown(role: Role, dialect: Dialect, words: &[Word]) -> bool
    requires { role ≡ role_of dialect words.now }
    ensures { result ≡ is_unknown dialect words.now }
{
    is_unknown_by(role, dialect, words) || is_crowded(role, dialect.system, words)
}

/// Whether the block waits for the other path. A macro call does not: there M is an argument.
fn waits_there(dialect: Dialect, words: &[Word]) -> bool
    ensures { result ≡ waits_there dialect words.now }
{
    has_wait(words, dialect) && !has_g(words, MACRO_CALL)
}

/// 57: whether a wait stands beside another word than P.
fn is_wait_not_alone(dialect: Dialect, words: &[Word]) -> bool
    ensures { result ≡ is_wait_not_alone dialect words.now }
{
    waits_there(dialect, words) && 1 < count_of(words, b"ABCDEFGHIJKLMNOQRSTUVWXYZ")
}

/// Whether the P of a wait names both paths: 3 by bits, 12 or 21 by their numbers.
fn names_both(bits: bool, paths: u32) -> bool
    ensures { result ≡ names_both bits paths }
{
    if bits {
        paths == 3
    } else {
        paths == 12 || paths == 21
    }
}

/// Whether the number of the last P names both paths.
fn is_both(bits: bool, words: &[Word]) -> bool
    ensures { result ≡ is_both bits (last_number (codes "P") words.now) }
{
    match last_number(words, b"P") {
        Some(paths) => names_both(bits, paths),
        None => false,
    }
}

/// 58: whether the P of a wait is computed, or the last one does not name both paths.
fn is_wait_of_others(dialect: Dialect, words: &[Word]) -> bool
    ensures { result ≡ is_wait_of_others dialect words.now }
{
    waits_there(dialect, words)
        && has(words, b"P")
        && (has_computed(words, b"P") || !is_both(dialect.bits, words))
}

/// Whether an M code of the block is one that must stand alone among its M codes.
fn has_lone_m(words: &[Word]) -> bool
    ensures { result ≡ list_any is_lone_m (m_codes words.now) }
{
    words
        .iter()
        .filter(|word| is_one_of(b"M", word.letter))
        .filter_map(|word| number(word))
        .any(|code| is_lone_m(code))
}

/// 59: whether an end, a call or a return stands beside another M word, outside a macro call.
fn has_two_m(words: &[Word]) -> bool
    ensures { result ≡ has_two_m words.now }
{
    1 < count_of(words, b"M") && has_lone_m(words) && !has_g(words, MACRO_CALL)
}

/// Whether the G word is a dwell or the setting of an offset, whose P is its own.
fn takes_p(system: System, word: &Word) -> bool
    ensures { result ≡ takes_p (row_of_word system word.now) }
{
    match row_of_word(system, word) {
        Some(row) => matches!(row.kind, CodeKind::Dwell | CodeKind::Setting),
        None => false,
    }
}

/// Whether a G word of the block takes the P, which then is not that of a call or a return.
fn uses_p(system: System, words: &[Word]) -> bool
    ensures { result ≡ uses_p system words.now }
{
    words
        .iter()
        .filter(|word| is_one_of(b"G", word.letter))
        .any(|word| takes_p(system, word))
}

/// Whether the block has one P, one Q and one G word.
fn is_one_contour(words: &[Word]) -> bool
    ensures { result ≡ is_one_contour words.now }
{
    count_of(words, b"P") == 1 && count_of(words, b"Q") == 1 && count_of(words, b"G") == 1
}

/// Whether the P of a call of a subprogram has repeats before the program's four digits.
fn has_repeats(words: &[Word]) -> bool
    ensures { result ≡ is_many (last_number (codes "P") words.now) }
{
    match last_number(words, b"P") {
        Some(n) => 10_000 <= n,
        None => false,
    }
}

/// 61: whether the block is a call without its program or with its repeats twice, a return with L,
/// a call or a return beside a G code that takes the P, or a contour without one P, one Q and one
/// G.
fn is_bad_call(role: Role, system: System, words: &[Word]) -> bool
    ensures { result ≡ is_bad_call_by role system words.now }
{
    match role {
        Role::MacroCall => !has(words, b"P"),
        Role::Subprogram => {
            !has(words, b"P") || uses_p(system, words) || (has_repeats(words) && has(words, b"L"))
        }
        Role::Return => has(words, b"L") || uses_p(system, words),
        Role::Roughing | Role::Finishing => !is_one_contour(words),
        Role::Wait | Role::End | Role::Other => false,
    }
}

/// Whether the word writes a whole number from the least to the greatest.
fn is_in(word: &Word, least: u32, greatest: u32) -> bool
    ensures { result ≡ is_in least greatest word.now }
{
    match number(word) {
        Some(n) => least <= n && n <= greatest,
        None => false,
    }
}

/// Whether each word of these letters writes a whole number from the least to the greatest. A word
/// that writes none is in no range.
fn are_in(words: &[Word], letters: &[u8], least: u32, greatest: u32) -> bool
    ensures { result ≡ are_in least greatest letters.now words.now }
{
    words
        .iter()
        .filter(|word| is_one_of(letters, word.letter))
        .all(|word| is_in(word, least, greatest))
}

/// Whether the P, L and Q of a call, a return or a contour are in their range; no other word
/// decides where a block leads.
fn is_in_range(role: Role, words: &[Word]) -> bool
    ensures { result ≡ is_in_range_by role words.now }
{
    match role {
        Role::MacroCall => are_in(words, b"PL", 1, 9_999),
        Role::Subprogram => {
            are_in(words, b"P", 1, LARGEST_WHOLE) && are_in(words, b"L", 1, 9_999)
        }
        Role::Return => are_in(words, b"P", 1, LAST_SEQUENCE),
        Role::Roughing | Role::Finishing => are_in(words, b"PQ", 1, LAST_SEQUENCE),
        Role::Wait | Role::End | Role::Other => true,
    }
}

/// 64: whether the P, L or Q of a call, a return or a contour is out of its range, or outside a
/// macro call an M word writes no whole number from 0 to 99,999,999.
fn is_out_of_range(role: Role, dialect: Dialect, words: &[Word]) -> bool
    requires { role ≡ role_of dialect words.now }
    ensures { result ≡ is_out_of_range dialect words.now }
{
    !is_in_range(role, words)
        || (!are_in(words, b"M", 0, LARGEST_WHOLE) && !has_g(words, MACRO_CALL))
}

/// 5: whether a word that must be written out has too many digits, or the L of G10 has, which may
/// write parameters.
fn is_long(role: Role, dialect: Dialect, words: &[Word]) -> bool
    requires { role ≡ role_of dialect words.now }
    ensures { result ≡ is_long dialect words.now }
{
    has_long(words, fixed_letters(role)) || (has_long(words, b"L") && has_g(words, SETTING))
}

/// Why the block is refused: of the refusals that hold of it the one of the least number.
pub(crate) fn refusal_of(role: Role, dialect: Dialect, words: &[Word]) -> Option<Cause>
    requires { role ≡ role_of dialect words.now }
    ensures { result ≡ refusal_of dialect words.now }
{
    if is_long(role, dialect, words) {
        Some(Cause::TooManyDigits)
    } else if is_not_fixed(role, dialect, words) {
        Some(Cause::NotFixed)
    } else if is_unknown(role, dialect, words) {
        Some(Cause::UnknownCode)
    } else if is_wait_not_alone(dialect, words) {
        Some(Cause::WaitNotAlone)
    } else if is_wait_of_others(dialect, words) {
        Some(Cause::WaitPaths)
    } else if has_two_m(words) {
        Some(Cause::TwoM)
    } else if is_bad_call(role, dialect.system, words) {
        Some(Cause::BadCall)
    } else if is_out_of_range(role, dialect, words) {
        Some(Cause::WordRange)
    } else {
        None
    }
}
