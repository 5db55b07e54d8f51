//! Which cycle cuts a taper, and the blocks that begin a run of such cuts.
ghost use Rattle.std.specs.Prelude.{◌≡◌};
ghost use Rattle.taper_form.specs.Kinds.{kind_code, of_code, in_force, named_kind, kept_kind, kind_of, begins_cut};

use code_tables::{CodeKind, System};
use cycle_words::{is_said, words_of};
use nc_text::{Block, Word};
use plain_form::has_code;

/// Which cycle cuts a taper.
#[derive(Clone, Copy, Debug, PartialEq, Eq)]
pub enum TaperKind {
    /// G90 (G77 in system B): along Z.
    Turning,
    /// G94 (G79 in system B): along X.
    Facing,
}

impl TaperKind {
    /// Its code in a system, in millionths.
    pub fn code(self, system: System) -> i64
        ensures { result ≡ kind_code self system }
    {
        match (self, system) {
            (TaperKind::Turning, System::A) => 90_000_000,
            (TaperKind::Turning, System::B) => 77_000_000,
            (TaperKind::Facing, System::A) => 94_000_000,
            (TaperKind::Facing, System::B) => 79_000_000,
        }
    }
}

/// The cycle that a code of motion is.
fn of_code(kind: CodeKind) -> Option<TaperKind>
    ensures { result ≡ of_code kind }
{
    match kind {
        CodeKind::CycleTurn => Some(TaperKind::Turning),
        CodeKind::CycleFace => Some(TaperKind::Facing),
        _ => None,
    }
}

/// The cycle whose code is in force.
fn in_force(motion: &Option<CodeKind>) -> Option<TaperKind>
    ensures { result ≡ in_force motion.now }
{
    match *motion {
        Some(kind) => of_code(kind),
        None => None,
    }
}

/// The cycle whose code the words have.
fn named_kind(words: &[Word], system: System) -> Option<TaperKind>
    ensures { result ≡ named_kind system words.now }
{
    if has_code(words, TaperKind::Turning.code(system)) {
        return Some(TaperKind::Turning);
    }
    if has_code(words, TaperKind::Facing.code(system)) {
        Some(TaperKind::Facing)
    } else {
        None
    }
}

/// The cycle whose code is in force in a block without a G code.
fn kept_kind(words: &[Word], motion: &Option<CodeKind>) -> Option<TaperKind>
    ensures { result ≡ kept_kind motion.now words.now }
{
    if is_said(words, b'G') {
        None
    } else {
        in_force(motion)
    }
}

/// The cycle of a block with a taper: the words have R, and its code, or no G code where its code is
/// in force.
pub(crate) fn kind_of(
    words: &[Word],
    system: System,
    motion: &Option<CodeKind>,
) -> Option<TaperKind>
    ensures { result ≡ kind_of system motion.now words.now }
{
    if !is_said(words, b'R') {
        return None;
    }
    match named_kind(words, system) {
        Some(kind) => {
            let kind: TaperKind = kind;
            Some(kind)
        }
        None => kept_kind(words, motion),
    }
}

/// Whether a block begins a cut along a taper: R beside G90 or G94 (G77 or G79 in system B), or R in
/// a block without a G code where one of these is in force.
pub fn begins_cut(block: &Block, system: System, motion: &Option<CodeKind>) -> bool
    ensures { result ≡ begins_cut system motion.now block.now.body }
{
    kind_of(words_of(block), system, motion).is_some()
}
