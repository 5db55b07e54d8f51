//! The G and M codes of a block, and what they make of its P and L. What a code does is not known
//! here; the tables are in code_tables.
ghost use Rattle.std.specs.Prelude.{◌≡◌, ◌≤◌, IfSome, IfOk};
ghost use Rattle.std.specs.List.{list_any};
ghost use Rattle.nc_number.specs.declared.limits.TheConstants.{LARGEST_WHOLE};
ghost use Rattle.code_tables.specs.Codes.{last_of_group};
ghost use Rattle.block_words.specs.Codes.{row_of_word, rows, kind_of, m_codes, m_code, is_waiting, has_code, has_wait, first_waiting, is_macro_call, purpose_by};

use crate::dialect::{Dialect, row_of};
use crate::letters::is_one_of;
use crate::purpose::Purpose;
use crate::row_list::RowList;
use crate::word::FlowWord;
use code_tables::{CodeKind, ONE_SHOT_GROUP, Row, System, last_of_group};
use nc_number::NoMemory;
use std::alloc::{AllocError, Global};

/// The row of a G word that is written out, if the system has its code.
pub fn row_of_word(system: System, word: &FlowWord) -> Option<Row>
    ensures { result ≡ row_of_word system word.now }
{
    match word.value.natural() {
        Some(code) => row_of(system, code),
        None => None,
    }
}

/// The rows of the block's G words. A code that the system lacks is left out. The only error is out
/// of memory.
fn collect_rows(alloc: Global, system: System, words: &[FlowWord]) -> Result<Vec<Row>, AllocError>
    ensures { IfOk result (λ found. found.items ≡ rows system words.now) }
{
    words
        .iter()
        .filter(|word| is_one_of(b"G", word.letter))
        .filter_map(|word| row_of_word(system, word))
        .collect(alloc)
}

/// The rows of the block's G words, in their order. The only error is out of memory.
pub fn rows_of(alloc: Global, system: System, words: &[FlowWord]) -> Result<RowList, NoMemory>
    ensures { IfOk result (λ list. list ≡ rows system words.now) }
{
    let found = collect_rows(alloc, system, words)?;
    // A copy takes just the room that it needs.
    let rows = Vec::from_slice(alloc, &found)?;
    Ok(RowList::of(rows))
}

/// The kind of the one-shot code that is in force: of the last of these rows that is one.
pub fn one_shot_of(rows: &[Row]) -> Option<CodeKind>
    ensures { result ≡ kind_of (last_of_group rows.now ONE_SHOT_GROUP) }
{
    last_of_group(rows, ONE_SHOT_GROUP).map(|row| row.kind)
}

/// The first M code that the block writes out as a whole number from 0 on.
pub fn first_code(words: &[FlowWord]) -> Option<u32>
    ensures value { result ≡ m_code words.now }
    ensures range { IfSome result (λ code. code ≤ LARGEST_WHOLE) }
{
    for word in words {
        if is_one_of(b"M", word.letter)
            && let Some(code) = word.value.natural()
        {
            return Some(code);
        }
    }
    None
}

/// Whether the block has an M word of this code.
pub fn has_code(words: &[FlowWord], code: u32) -> bool
    ensures { result ≡ has_code code words.now }
{
    words
        .iter()
        .filter(|word| is_one_of(b"M", word.letter))
        .filter_map(|word| word.value.natural())
        .any(|own| own == code)
}

/// Whether the block has a waiting M code.
pub fn has_wait(words: &[FlowWord], dialect: Dialect) -> bool
    ensures { result ≡ has_wait dialect words.now }
{
    words
        .iter()
        .filter(|word| is_one_of(b"M", word.letter))
        .filter_map(|word| word.value.natural())
        .any(|code| dialect.is_waiting(code))
}

/// The first waiting M code of the block.
fn find_waiting(words: &[FlowWord], dialect: Dialect) -> Option<u32>
    ensures { result ≡ first_waiting dialect (m_codes words.now) }
{
    words
        .iter()
        .filter(|word| is_one_of(b"M", word.letter))
        .filter_map(|word| word.value.natural())
        .find(|code| dialect.is_waiting(*code))
}

/// The first waiting M code of the block. It fits 16 bits, since it is none above the last waiting
/// code.
#[tactic(auto, using(crate::proofs::Waiting::first_waiting_is_below))]
pub fn first_waiting(words: &[FlowWord], dialect: Dialect) -> Option<u16>
    ensures { result ≡ first_waiting dialect (m_codes words.now) }
{
    match find_waiting(words, dialect) {
        Some(code) => Some(code as u16),
        None => None,
    }
}

/// Whether one of these rows calls a macro.
pub fn have_macro_call(rows: &[Row]) -> bool
    ensures { result ≡ list_any (λ row. is_macro_call row.kind) rows.now }
{
    rows.iter()
        .any(|row| matches!(row.kind, CodeKind::MacroCall))
}

/// What the one-shot code in force makes of P and L.
pub fn purpose_by(one_shot: Option<CodeKind>) -> Purpose
    ensures { result ≡ purpose_by one_shot }
{
    match one_shot {
        Some(CodeKind::Dwell) => Purpose::Dwell,
        Some(CodeKind::Setting) => Purpose::Setting,
        _ => Purpose::Other,
    }
}
