//! What decides the meaning of a word in its block: the block's purpose, and whether its motion is
//! an arc or its code sets an offset.
ghost use Rattle.std.specs.Prelude.{◌≡◌, false};
ghost use Rattle.block_words.specs.Codes.{is_macro};

use block_words::Purpose;

/// What decides the meaning of a word in its block, which calls no macro.
#[derive(Clone, Copy, Debug, PartialEq, Eq)]
pub struct Sense {
    /// What the block's codes make of its words.
    pub purpose: Purpose,
    /// An arc is in force behind the block's own codes; beside it I, K and R are read.
    pub arc: bool,
    /// The setting of an offset is given, beside which R is read and ignored.
    pub setting: bool,
    ghost calls_no_macro: { is_macro purpose ≡ false },
}
