//! What a block says while compensation is in force: a line, or a code of compensation alone.
ghost use Rattle.std.specs.Prelude.{◌≡◌, IfOk};
ghost use Rattle.nc_number.specs.Position.{IsPosition};
ghost use Rattle.nose_words.specs.Said.{codes_at, pace_after, twice_cause, feed_cause, words_cause, is_off, is_last, may_wait, pace_cause, line_to, line_at, wait_at, is_behind_code, stage_behind, block_said, KeepsPosition};

use cycle_words::{
    calculated_in, first_cause, is_said, says_ends, unexpected_in, value_said, words_of,
};
use line_words::{LINE_CODE, RAPID_CODE, angle_cause, end_cause, line_end, twice_of};
use nc_number::{Point, Value};
use nc_text::{Block, Word};
use plain_form::{PlainCause, has_code};

/// G40, G41 and G42, in millionths.
pub(crate) const OFF_CODE: i64 = 40_000_000;

pub(crate) const LEFT_CODE: i64 = 41_000_000;

pub(crate) const RIGHT_CODE: i64 = 42_000_000;

/// How a block with an axis word moves.
#[derive(Clone, Copy, Debug, PartialEq, Eq)]
pub(crate) enum Pace {
    /// By G00.
    Rapid,
    /// By G01.
    Cut,
    /// By another code, or it is not known by which.
    Other,
}

/// Which block of a run comes next.
#[derive(Clone, Copy, Debug, PartialEq, Eq)]
pub(crate) enum Stage {
    /// The one with G41 or G42.
    First,
    /// The one that leads to the contour, behind G41 or G42 alone.
    Lead,
    /// A line of the contour, or a block with G40.
    Contour,
    /// The one that leads off the contour, behind G40 alone.
    Off,
}

/// Where a run stands before a block.
#[derive(Clone, Copy, Debug, PartialEq, Eq)]
pub(crate) struct Standing {
    /// Which block comes next.
    pub stage: Stage,
    /// How it moves, if it has no code.
    pub pace: Pace,
    /// Where the line before it ends, as it is programmed.
    pub from: Point,
}

/// A line of a run, as its block says it.
#[derive(Clone, Copy, Debug, PartialEq, Eq)]
pub(crate) struct NoseLine {
    /// The line of the tape.
    pub line: u32,
    /// Whether a code of compensation alone stands in the line before it.
    pub behind_code: bool,
    /// Where it leads, as it is programmed.
    pub to: Point,
    /// How it moves.
    pub pace: Pace,
    /// The feed, if the block says one.
    pub feed: Option<Value>,
}

/// What a block of a run says.
#[derive(Clone, Copy, Debug, PartialEq, Eq)]
pub(crate) struct BlockSaid {
    /// Its line; none if it has a code of compensation alone.
    pub line: Option<NoseLine>,
    /// Whether the run ends with it.
    pub last: bool,
    /// Where the run stands behind it.
    pub behind: Standing,
}

/// The codes that a block may have.
fn codes_at(stage: Stage) -> &'static [i64]
    ensures { result.now ≡ codes_at stage }
{
    match stage {
        Stage::First => &[RAPID_CODE, LINE_CODE, LEFT_CODE, RIGHT_CODE],
        Stage::Contour => &[RAPID_CODE, LINE_CODE, OFF_CODE],
        Stage::Lead | Stage::Off => &[RAPID_CODE, LINE_CODE],
    }
}

/// How a block with these words moves.
fn pace_after(words: &[Word], pace: Pace) -> Pace
    ensures { result ≡ pace_after pace words.now }
{
    if has_code(words, LINE_CODE) {
        Pace::Cut
    } else if has_code(words, RAPID_CODE) {
        Pace::Rapid
    } else {
        pace
    }
}

/// That the words say a thing in two ways: X beside U, Z beside W, `,A` beside both ends, G41 beside
/// G42.
fn twice_cause(words: &[Word]) -> Option<PlainCause>
    ensures { result ≡ twice_cause words.now }
{
    if has_code(words, LEFT_CODE) && has_code(words, RIGHT_CODE) {
        return Some(PlainCause::Unexpected(b'G'));
    }
    let along = first_cause(twice_of(words, b'Z', b'W'), angle_cause(words));
    first_cause(twice_of(words, b'X', b'U'), along)
}

/// That a feed stands in a block that cuts nothing.
fn feed_cause(words: &[Word], pace: Pace) -> Option<PlainCause>
    ensures { result ≡ feed_cause pace words.now }
{
    let cuts = matches!(pace, Pace::Cut) && says_ends(words);
    if is_said(words, b'F') && !cuts {
        Some(PlainCause::Unexpected(b'F'))
    } else {
        None
    }
}

/// Why the words are none of a run: others, a calculated one, a thing that is said twice, or a feed
/// for nothing.
fn words_cause(words: &[Word], stage: Stage, pace: Pace) -> Option<PlainCause>
    ensures { result ≡ words_cause stage pace words.now }
{
    let strange = unexpected_in(words, b"GXZUWFa", codes_at(stage));
    let calculated = calculated_in(words, b"XZUWFa");
    let whole = first_cause(twice_cause(words), feed_cause(words, pace));
    first_cause(first_cause(strange, calculated), whole)
}

/// Whether the block behind G40 alone comes next.
fn is_off(stage: Stage) -> bool
    ensures { result ≡ is_off stage }
{
    matches!(stage, Stage::Off)
}

/// Whether a line with these words leads off the contour.
fn is_last(words: &[Word], stage: Stage) -> bool
    ensures { result ≡ is_last stage words.now }
{
    is_off(stage) || has_code(words, OFF_CODE)
}

/// Whether a block with these words may have no axis: its code of compensation stands alone.
fn may_wait(words: &[Word], stage: Stage) -> bool
    ensures { result ≡ may_wait stage words.now }
{
    matches!(stage, Stage::First) || (matches!(stage, Stage::Contour) && has_code(words, OFF_CODE))
}

/// That a line moves by no code of a line, or that one of the contour is not cut.
fn pace_cause(stage: Stage, last: bool, pace: Pace) -> Option<PlainCause>
    ensures { result ≡ pace_cause stage last pace }
{
    match pace {
        Pace::Cut => None,
        Pace::Rapid => {
            if matches!(stage, Stage::Contour) && !last {
                Some(PlainCause::Missing(b'G'))
            } else {
                None
            }
        }
        Pace::Other => Some(PlainCause::Missing(b'G')),
    }
}

/// Whether a code of compensation alone stands before the next block.
fn is_behind_code(stage: Stage) -> bool
    ensures { result ≡ is_behind_code stage }
{
    matches!(stage, Stage::Lead | Stage::Off)
}

/// What a line says that leads to a point.
fn line_to(block: &Block, stage: Stage, pace: Pace, to: Point) -> BlockSaid
    ensures { result ≡ line_to block.now stage pace to }
{
    let words = words_of(block);
    BlockSaid {
        line: Some(NoseLine {
            line: block.line,
            behind_code: is_behind_code(stage),
            to,
            pace,
            feed: value_said(words, b'F'),
        }),
        last: is_last(words, stage),
        behind: Standing {
            stage: Stage::Contour,
            pace,
            from: to,
        },
    }
}

/// What a block says that has words of axes.
fn line_at(block: &Block, standing: &Standing, pace: Pace) -> Result<BlockSaid, PlainCause>
    requires { IsPosition standing.now.from }
    ensures line { result ≡ line_at block.now standing.now pace }
    ensures position { IfOk result KeepsPosition }
{
    let words = words_of(block);
    if let Some(cause) = pace_cause(standing.stage, is_last(words, standing.stage), pace) {
        return Err(cause);
    }
    match line_end(words, &standing.from) {
        Some(to) => Ok(line_to(block, standing.stage, pace, to)),
        None => Err(end_cause(words)),
    }
}

/// What a block says that has none.
fn wait_at(block: &Block, standing: &Standing, pace: Pace) -> Result<BlockSaid, PlainCause>
    requires { IsPosition standing.now.from }
    ensures wait { result ≡ wait_at block.now standing.now pace }
    ensures position { IfOk result KeepsPosition }
{
    let words = words_of(block);
    if !may_wait(words, standing.stage) {
        return Err(PlainCause::Missing(b'X'));
    }
    Ok(BlockSaid {
        line: None,
        last: false,
        behind: Standing {
            stage: stage_behind(standing.stage),
            pace,
            from: standing.from,
        },
    })
}

/// Which block comes behind a code of compensation alone.
fn stage_behind(stage: Stage) -> Stage
    ensures { result ≡ stage_behind stage }
{
    match stage {
        Stage::First => Stage::Lead,
        _ => Stage::Off,
    }
}

/// What a block of a run says, or why it is none of it.
pub(crate) fn block_said(block: &Block, standing: &Standing) -> Result<BlockSaid, PlainCause>
    requires { IsPosition standing.now.from }
    ensures said { result ≡ block_said block.now standing.now }
    ensures position { IfOk result KeepsPosition }
{
    let words = words_of(block);
    let pace = pace_after(words, standing.pace);
    if let Some(cause) = words_cause(words, standing.stage, pace) {
        return Err(cause);
    }
    if says_ends(words) {
        line_at(block, standing, pace)
    } else {
        wait_at(block, standing, pace)
    }
}
