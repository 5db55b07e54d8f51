//! Where a cycle starts, what of the tape must be known for that, and what its words are.
ghost use Rattle.std.specs.Prelude.{◌≡◌, ◌≤◌, IfSome, unsigned_abs};
ghost use Rattle.nc_number.specs.declared.limits.TheConstants.{LONGEST_SAID};
ghost use Rattle.cycle_words.specs.Scenes.{start_of, way_cause, words_of, says_ends, refused, line_code, has_motion};

use crate::numbers::is_said;
use code_tables::System;
use nc_number::{LONGEST_SAID, Point};
use nc_text::{Block, Body, Word};
use plain_form::{FormAnswer, PlainCause, PlainFault, Scene, has_code};

/// Where the tool stands, if it is known and within what words can say.
#[tactic(auto, unfolding(crate::specs::Scenes::start_of))]
pub fn start_of(scene: &Scene) -> Option<Point>
    ensures start { result ≡ start_of scene.now }
    ensures near { IfSome result (λ p. (unsigned_abs p.x ≤ LONGEST_SAID) × (unsigned_abs p.z ≤ LONGEST_SAID)) }
{
    let x = scene.x?;
    let z = scene.z?;
    if x.unsigned_abs() <= LONGEST_SAID && z.unsigned_abs() <= LONGEST_SAID {
        Some(Point { x, z })
    } else {
        None
    }
}

/// Why lengths can't be read: their unit is not known, or they are ways.
pub fn way_cause(scene: &Scene) -> Option<PlainCause>
    ensures { result ≡ way_cause scene.now }
{
    if scene.unit.is_none() {
        return Some(PlainCause::Unit);
    }
    match scene.incremental {
        Some(false) => None,
        Some(true) | None => Some(PlainCause::Incremental),
    }
}

/// The words of a block; a statement has none.
pub fn words_of(block: &Block) -> &[Word]
    ensures { result.now ≡ words_of block.now.body }
{
    match &block.body {
        Body::Words(words) => words.as_slice(),
        Body::Statement(_) => &[],
    }
}

/// Whether the words name a place in X or in Z.
pub fn says_ends(words: &[Word]) -> bool
    ensures { result ≡ says_ends words.now }
{
    is_said(words, b'X') || is_said(words, b'U') || is_said(words, b'Z') || is_said(words, b'W')
}

/// That a line is refused.
pub fn refused(line: u32, cause: PlainCause) -> FormAnswer
    ensures { result ≡ refused line cause }
{
    FormAnswer::Refused(PlainFault { line, cause })
}

/// The code of a thread along a line, in millionths.
fn line_code(system: System) -> i64
    ensures { result ≡ line_code system }
{
    match system {
        System::A => 32_000_000,
        System::B => 33_000_000,
    }
}

/// Whether the words have a code of motion along a line or round an arc.
pub fn has_motion(words: &[Word], system: System) -> bool
    ensures { result ≡ has_motion system words.now }
{
    has_code(words, 0)
        || has_code(words, 1_000_000)
        || has_code(words, 2_000_000)
        || has_code(words, 3_000_000)
        || has_code(words, line_code(system))
}
