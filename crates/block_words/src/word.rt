//! A word of a block: its letter and its value.
ghost use Rattle.std.specs.Prelude.{◌≡◌, ◌≤◌, Some, IfSome, unsigned_abs};
ghost use Rattle.nc_number.specs.declared.limits.TheConstants.{LARGEST_WHOLE};

use macro_eval::Code;
use nc_number::{ListOf, Literal};

/// The value of a word.
#[derive(Debug, Drop)]
pub enum WordValue {
    /// A number that is written out.
    Fixed(Literal),
    /// A variable or a bracketed expression, after the word's own sign, which is a minus or none.
    /// Contracts see the code as the tree of its text.
    Computed { minus: bool, code: Code },
}

/// An address letter and its value.
#[derive(Debug, Drop)]
pub struct FlowWord {
    /// The letter, in upper case.
    pub letter: u8,
    /// What it says.
    pub value: WordValue,
}

/// The words of a block, in the order of the text.
pub type FlowWordList = ListOf<FlowWord>;

impl WordValue {
    ghost use Rattle.block_words.specs.Words.{is_computed, whole_value};
    ghost use Rattle.block_words.specs.Codes.{natural_number};

    /// Whether it is a variable or an expression.
    pub fn is_computed(&self) -> bool
        ensures { result ≡ is_computed self.now }
    {
        match self {
            WordValue::Fixed(_) => false,
            WordValue::Computed { .. } => true,
        }
    }

    /// The whole number that is written out; it may have a point, with a fraction of 0.
    pub fn whole(&self) -> Option<i64>
        ensures value { result ≡ whole_value self.now }
        ensures range { IfSome result (λ n. unsigned_abs n ≤ LARGEST_WHOLE) }
    {
        match self {
            WordValue::Fixed(literal) => literal.whole(),
            WordValue::Computed { .. } => None,
        }
    }

    /// The whole number that is written out, if it is not below 0.
    pub fn natural(&self) -> Option<u32>
        ensures value { result ≡ natural_number (whole_value self.now) }
        ensures range { IfSome result (λ n. n ≤ LARGEST_WHOLE) }
    {
        match self.whole() {
            Some(n) if n >= 0 => Some(n as u32),
            _ => None,
        }
    }
}
