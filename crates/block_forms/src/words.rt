//! The words of a block that is not refused, with what its codes make of them: what the block is
//! for, and which codes it gives. Why words are refused is in refusals.rt.
ghost use Rattle.std.specs.Prelude.{◌≡◌};
ghost use Rattle.nc_number.specs.declared.limits.TheConstants.{LARGEST_WHOLE};
ghost use Rattle.block_words.specs.Codes.{rows as rows_in, one_shot as one_shot_in, purpose_of};

use block_words::{
    Dialect, FlowWord, FlowWordList, Purpose, RowList, first_code, has, has_code, has_wait,
    have_macro_call, one_shot_of, purpose_by, rows_of,
};
use code_tables::{CodeKind, Row};
use nc_number::NoMemory;
use std::alloc::Global;

/// The words of a block, and what its codes make of them.
#[derive(Drop)]
pub struct FlowWords {
    /// How its tape is read.
    pub dialect: Dialect,
    /// Its words, in the order of the text.
    pub words: FlowWordList,
    /// The rows of its G words, in their order.
    pub rows: RowList,
    /// Its one-shot code in force: the last one.
    pub one_shot: Option<CodeKind>,
    /// What decides the meaning of P and L.
    pub purpose: Purpose,
    ghost rows_are: { rows ≡ rows_in dialect.system words },
    ghost one_shot_is: { one_shot ≡ one_shot_in dialect.system words },
    ghost purpose_is: { purpose ≡ purpose_of dialect words },
}

impl FlowWords {
    ghost use Rattle.std.specs.Prelude.{◌≤◌, false, None, IfOk, IfSome, codes};
    ghost use Rattle.code_tables.specs.Kinds.{is_arc};
    ghost use Rattle.block_words.specs.Words.{has};
    ghost use Rattle.block_forms.specs.Refusals.{refusal_of};
    ghost use Rattle.block_words.specs.Codes.{m_code, is_macro, gives, is_dwell, is_setting, is_limit, is_machine, is_macro_call};

    /// The words with their rows and their purpose.
    pub(crate) fn of(
        alloc: Global,
        dialect: Dialect,
        words: FlowWordList,
    ) -> Result<FlowWords, NoMemory>
        ensures dialect { IfOk result (λ it. it.dialect ≡ dialect) }
        ensures words { IfOk result (λ it. it.words ≡ words) }
    {
        let rows = rows_of(alloc, dialect.system, words.as_slice())?;
        let one_shot = one_shot_of(rows.as_slice());
        let purpose = purpose_of(dialect, words.as_slice(), rows.as_slice(), one_shot);
        Ok(FlowWords {
            dialect,
            words,
            rows,
            one_shot,
            purpose,
        })
    }

    /// The M code of the block: the first one. A block that is not refused and calls no macro has
    /// no two, and its code is at most 999.
    #[tactic(auto, using(crate::proofs::Accepted::code_at_most))]
    pub fn code(&self) -> Option<u32>
        ensures value { result ≡ m_code self.now.words }
        ensures range { IfSome result (λ code. code ≤ LARGEST_WHOLE) }
        ensures small { refusal_of self.now.dialect self.now.words ≡ None → is_macro self.now.purpose ≡ false
            → IfSome result (λ code. code ≤ 999) }
    {
        first_code(self.words.as_slice())
    }

    /// Whether the block has an L word.
    pub fn has_l(&self) -> bool
        ensures { result ≡ has (codes "L") self.now.words }
    {
        has(self.words.as_slice(), b"L")
    }

    /// Whether the block has a G code of an arc.
    pub fn gives_arc(&self) -> bool
        ensures { result ≡ gives self.now.dialect.system is_arc self.now.words }
    {
        let rows = self.rows.as_slice();
        rows.iter().any(|row| row.kind.is_arc())
    }

    /// Whether the block has a dwell, G04.
    pub(crate) fn gives_dwell(&self) -> bool
        ensures { result ≡ gives self.now.dialect.system is_dwell self.now.words }
    {
        let rows = self.rows.as_slice();
        rows.iter().any(|row| matches!(row.kind, CodeKind::Dwell))
    }

    /// Whether the block sets an offset, G10.
    pub fn gives_setting(&self) -> bool
        ensures { result ≡ gives self.now.dialect.system is_setting self.now.words }
    {
        let rows = self.rows.as_slice();
        rows.iter().any(|row| matches!(row.kind, CodeKind::Setting))
    }

    /// Whether the block limits the spindle's speed, G50 of system A or G92 of system B.
    pub fn gives_limit(&self) -> bool
        ensures { result ≡ gives self.now.dialect.system is_limit self.now.words }
    {
        let rows = self.rows.as_slice();
        rows.iter().any(|row| matches!(row.kind, CodeKind::Limit))
    }

    /// Whether the block has positions in machine coordinates, G53.
    pub(crate) fn gives_machine(&self) -> bool
        ensures { result ≡ gives self.now.dialect.system is_machine self.now.words }
    {
        let rows = self.rows.as_slice();
        rows.iter().any(|row| matches!(row.kind, CodeKind::Machine))
    }

    /// Whether the block calls a macro, G65.
    pub(crate) fn gives_macro_call(&self) -> bool
        ensures { result ≡ gives self.now.dialect.system is_macro_call self.now.words }
    {
        have_macro_call(self.rows.as_slice())
    }
}

/// What decides the meaning of P and L: the first that the block has of a macro call, a call of a
/// subprogram, a return and a wait; else the one-shot code in force.
fn purpose_of(
    dialect: Dialect,
    words: &[FlowWord],
    rows: &[Row],
    one_shot: Option<CodeKind>,
) -> Purpose
    requires rows { rows.now ≡ rows_in dialect.system words.now }
    requires one_shot { one_shot ≡ one_shot_in dialect.system words.now }
    ensures { result ≡ purpose_of dialect words.now }
{
    if have_macro_call(rows) {
        Purpose::MacroCall
    } else if has_code(words, 98) {
        Purpose::Subprogram
    } else if has_code(words, 99) {
        Purpose::Return
    } else if has_wait(words, dialect) {
        Purpose::Wait
    } else {
        purpose_by(one_shot)
    }
}
