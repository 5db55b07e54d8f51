//! What the blocks of G71 or G72 before their contour say.
ghost use Rattle.std.specs.Prelude.{◌≡◌, ◌≤◌, ◌&&◌, ◌||◌, not, option_map, IfOk, IfSome, unsigned_abs};
ghost use Rattle.nc_number.specs.declared.limits.TheConstants.{LONGEST_SAID};
ghost use Rattle.cycle_words.specs.Numbers.{length_said};
ghost use Rattle.rough_words.specs.Heads.{way_of, code_of, depth_letter, size_cause, cut_cause, is_tool, tool_cause, numbers_cause, call_cause, cut_of, single_cut, head_with, calls, single_head, second_head, double_head, pattern_head, head_of, IsNearCut, IsNearHead};

use arc_contour::Way;
use contour_words::{
    Call, Tempo, fault, is_numbered, length_or_none, refuse, tempo_cause, tempo_of,
};
use cycle_words::{
    calculated_in, count_or, count_said, first_cause, is_said, length_or, length_said, missing_of,
    no_count_in, unexpected_in, words_of,
};
use nc_text::{Block, Word};
use plain_form::{PlainCause, PlainFault, Scene, has_code};

/// G73, in millionths.
pub(crate) const PATTERN_CODE: i64 = 73_000_000;

/// How a cycle cuts, in 0.001 mm: what no word says is left to the settings.
#[derive(Clone, Copy, Debug)]
pub struct Cut {
    /// How deep each pass cuts: along the axis a radius.
    pub depth: Option<u64>,
    /// How far the tool draws back after a pass.
    pub retreat: Option<u64>,
}

/// What the blocks before the contour say.
#[derive(Clone, Copy, Debug)]
pub struct Head {
    /// Which way the passes run: G71 along the axis, G72 across it.
    pub way: Way,
    /// Whether the cycle's first block is left out.
    pub is_single: bool,
    /// How it cuts.
    pub cut: Cut,
    /// The contour that it calls.
    pub call: Call,
    /// The allowance in X, a diameter.
    pub x: i64,
    /// The allowance in Z.
    pub z: i64,
    /// The feed and the speed of its cuts.
    pub tempo: Tempo,
}

/// Which way the passes of a cycle run, if the words are those of G71 or G72.
pub(crate) fn way_of(words: &[Word]) -> Option<Way>
    ensures { result ≡ way_of words.now }
{
    if has_code(words, 71_000_000) {
        Some(Way::Along)
    } else if has_code(words, 72_000_000) {
        Some(Way::Across)
    } else {
        None
    }
}

/// The code of a cycle, in millionths.
fn code_of(way: Way) -> i64
    ensures { result ≡ code_of way }
{
    match way {
        Way::Along => 71_000_000,
        Way::Across => 72_000_000,
    }
}

/// The letter of the depth in a cycle's first block.
pub(crate) fn depth_letter(way: Way) -> u8
    ensures { result ≡ depth_letter way }
{
    match way {
        Way::Along => b'U',
        Way::Across => b'W',
    }
}

/// That a length is negative.
fn size_cause(words: &[Word], letter: u8) -> Option<PlainCause>
    ensures { result ≡ size_cause letter words.now }
{
    if length_or(words, letter, 0) < 0 {
        Some(PlainCause::Range(letter))
    } else {
        None
    }
}

/// Why a cycle's first block is refused.
fn cut_cause(way: Way, words: &[Word]) -> Option<PlainCause>
    ensures { result ≡ cut_cause way words.now }
{
    let letter = depth_letter(way);
    let strange = unexpected_in(words, &[b'G', letter, b'R'], &[code_of(way)]);
    let calculated = calculated_in(words, &[letter, b'R']);
    let sizes = first_cause(size_cause(words, letter), size_cause(words, b'R'));
    first_cause(strange, first_cause(calculated, sizes))
}

/// Whether T names the tool that is in place.
fn is_tool(words: &[Word], tool: Option<u32>) -> bool
    ensures { result ≡ is_tool words.now tool }
{
    match count_said(words, b'T') {
        Some(number) => is_numbered(number, tool),
        None => false,
    }
}

/// That T names another tool than the one in place.
pub(crate) fn tool_cause(words: &[Word], tool: Option<u32>) -> Option<PlainCause>
    ensures { result ≡ tool_cause words.now tool }
{
    if is_said(words, b'T') && !is_tool(words, tool) {
        Some(PlainCause::Unexpected(b'T'))
    } else {
        None
    }
}

/// Why P and Q, which name a contour, are refused: each is a count, and there.
pub(crate) fn numbers_cause(words: &[Word]) -> Option<PlainCause>
    ensures { result ≡ numbers_cause words.now }
{
    let first = missing_of(is_said(words, b'P'), b'P');
    let last = missing_of(is_said(words, b'Q'), b'Q');
    first_cause(no_count_in(words, b"PQ"), first_cause(first, last))
}

/// Why the block of this code that calls the contour is refused, of which these letters are taken.
fn call_cause(code: i64, words: &[Word], letters: &[u8], tool: Option<u32>) -> Option<PlainCause>
    ensures { result ≡ call_cause code words.now letters.now tool }
{
    let strange = unexpected_in(words, letters, &[code]);
    let calculated = calculated_in(words, letters);
    let numbers = first_cause(numbers_cause(words), size_cause(words, b'D'));
    let rest = first_cause(tempo_cause(words), tool_cause(words, tool));
    first_cause(strange, first_cause(calculated, first_cause(numbers, rest)))
}

/// The size of a length, if there is one.
fn size_said(words: &[Word], letter: u8) -> Option<u64>
    ensures size { result ≡ option_map unsigned_abs (length_said letter words.now) }
    ensures near { IfSome result (λ l. l ≤ LONGEST_SAID) }
{
    match length_said(words, letter) {
        Some(length) => Some(length.unsigned_abs()),
        None => None,
    }
}

/// How a cycle cuts whose first block has these words.
fn cut_of(way: Way, words: &[Word]) -> Cut
    ensures cut { result ≡ cut_of way words.now }
    ensures near { IsNearCut result }
{
    Cut {
        depth: size_said(words, depth_letter(way)),
        retreat: size_said(words, b'R'),
    }
}

/// How a cycle of one block cuts: its depth is under D, if at all.
fn single_cut(words: &[Word]) -> Cut
    ensures cut { result ≡ single_cut words.now }
    ensures near { IsNearCut result }
{
    Cut {
        depth: size_said(words, b'D'),
        retreat: None,
    }
}

/// What the block that calls the contour says, of a cycle that cuts so.
fn head_with(way: Way, is_single: bool, cut: &Cut, line: u32, words: &[Word]) -> Head
    requires { IsNearCut cut.now }
    ensures head { result ≡ head_with way is_single cut.now line words.now }
    ensures near { IsNearHead result }
{
    Head {
        way,
        is_single,
        cut: *cut,
        call: Call {
            line,
            first: count_or(words, b'P', 0),
            last: count_or(words, b'Q', 0),
        },
        x: length_or_none(words, b'U'),
        z: length_or_none(words, b'W'),
        tempo: tempo_of(words),
    }
}

/// Whether the words name a contour.
fn calls(words: &[Word]) -> bool
    ensures { result ≡ calls words.now }
{
    is_said(words, b'P') || is_said(words, b'Q')
}

/// A cycle of one block.
#[tactic(auto, unfolding(crate::specs::Heads::single_head))]
fn single_head(way: Way, line: u32, words: &[Word], tool: Option<u32>) -> Result<Head, PlainFault>
    ensures head { result ≡ single_head way line words.now tool }
    ensures near { IfOk result IsNearHead }
{
    refuse(line, call_cause(code_of(way), words, b"GPQUWDFST", tool))?;
    Ok(head_with(way, true, &single_cut(words), line, words))
}

/// What the second block of a cycle of two of this code says, whose first one has that line and cuts
/// so.
#[tactic(auto, unfolding(crate::specs::Heads::second_head))]
fn second_head(
    way: Way,
    code: i64,
    line: u32,
    cut: &Cut,
    block: &Block,
    tool: Option<u32>,
) -> Result<Head, PlainFault>
    requires { IsNearCut cut.now }
    ensures head { result ≡ second_head way code line cut.now block.now tool }
    ensures near { IfOk result IsNearHead }
{
    let words = words_of(block);
    if !(has_code(words, code) && calls(words)) {
        return Err(fault(line, PlainCause::Missing(b'P')));
    }
    refuse(block.line, call_cause(code, words, b"GPQUWFST", tool))?;
    Ok(head_with(way, false, cut, block.line, words))
}

/// A cycle of two blocks.
#[tactic(auto, unfolding(crate::specs::Heads::double_head))]
fn double_head(
    way: Way,
    line: u32,
    words: &[Word],
    behind: &[Block],
    tool: Option<u32>,
) -> Result<Head, PlainFault>
    ensures head { result ≡ double_head way line words.now behind.now tool }
    ensures near { IfOk result IsNearHead }
{
    refuse(line, cut_cause(way, words))?;
    let cut = cut_of(way, words);
    match behind.first() {
        Some(block) => second_head(way, code_of(way), line, &cut, block, tool),
        None => Err(fault(line, PlainCause::Missing(b'P'))),
    }
}

/// What the second block of G73 says, whose first one has that line.
pub(crate) fn pattern_head(
    line: u32,
    behind: &[Block],
    tool: Option<u32>,
) -> Result<Head, PlainFault>
    ensures head { result ≡ pattern_head line behind.now tool }
    ensures near { IfOk result IsNearHead }
{
    let cut = Cut {
        depth: None,
        retreat: None,
    };
    match behind.first() {
        Some(block) => second_head(Way::Along, PATTERN_CODE, line, &cut, block, tool),
        None => Err(fault(line, PlainCause::Missing(b'P'))),
    }
}

/// What the blocks of a cycle before its contour say: of one that calls it, or of one and that behind
/// it.
pub(crate) fn head_of(
    way: Way,
    block: &Block,
    behind: &[Block],
    scene: &Scene,
) -> Result<Head, PlainFault>
    ensures head { result ≡ head_of way block.now behind.now scene.now }
    ensures near { IfOk result IsNearHead }
{
    let words = words_of(block);
    if calls(words) {
        single_head(way, block.line, words, scene.tool)
    } else {
        double_head(way, block.line, words, behind, scene.tool)
    }
}
