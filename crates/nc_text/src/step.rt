//! Where the reader stands after one line more, at each stage of a tape: before, between and after
//! its two `%` lines, and at a refusal. feed.rt reads its lines with it. `len` counts the bytes of
//! a line without its line feed; `ended` says whether it has one.
ghost use Rattle.std.specs.Prelude.{◌≡◌, ◌∷◌, ◌<◌, ◌-◌, ◌^◌, List, ℕ, true, length, ◌≤◌, IfOk, Ok};
ghost use Rattle.nc_number.specs.Answers.{Gives};
ghost use Rattle.nc_text.specs.Lines.{Line, IsOneLine, is_percent, size_of};
ghost use Rattle.nc_text.specs.declared.fault.TextFault.{TextFault};
ghost use Rattle.line_text.specs.Refusals.{refusal_number};
ghost use Rattle.line_text.specs.Said.{line_says};
ghost use Rattle.nc_text.specs.Tape.{Before, goes_on, in_rest, after_outer, after_percent, after_said};
ghost use Rattle.nc_text.specs.View.{before_of};
ghost use Rattle.nc_text.specs.Mark.{Grows};
ghost use Rattle.nc_text.specs.Reading.{answer_from, counted_length, line_continued, LeadsTo};

use crate::fault::TextFault;
use crate::line_feed::cut_at_line_feed;
use crate::open_line::{kept_whole, longer};
use crate::progress::Progress;
use crate::stage::Stage;
use line_text::{LineBuffer, Refusal, read_line};
use nc_number::{Failing, NoMemory};

/// Whether a line begins with `%`, and so begins or ends the tape.
pub(crate) fn is_percent(bytes: &[u8]) -> bool
    ensures { result ≡ is_percent bytes.now }
{
    match bytes {
        [] => false,
        [first, ..] => *first == b'%',
    }
}

/// A refusal as the fault of the text: its number, told of this line.
fn fault_at(line: u32, refusal: Refusal) -> TextFault
    ensures { result ≡ record { number = refusal_number refusal; line = line } }
{
    let number = refusal.number();
    TextFault { number, line }
}

/// Where the reader stands after a line before the first `%` line, or after that line.
fn leader_line(progress: &mut Progress, kept: &[u8], len: u32, ended: bool) -> Stage
    requires { 0 < size_of len ended }
    ensures step { (skips : ℕ) (lines : List Line) →
        line_continued skips Stage.Leader kept.now len ended lines (before_of progress.old)
        ≡ answer_from skips result lines (before_of progress.new) }
    ensures grows { Grows (before_of progress.old) (before_of progress.new) }
{
    let line = progress.lines + 1;
    if is_percent(kept) {
        match progress.pass_percent(len, ended) {
            Ok(()) => {
                progress.begin();
                Stage::Body
            }
            Err(refusal) => Stage::Refused(fault_at(line, refusal)),
        }
    } else {
        match progress.pass_outer(len, ended) {
            Ok(()) => Stage::Leader,
            Err(refusal) => Stage::Refused(fault_at(line, refusal)),
        }
    }
}

/// Where the reader stands after a line that follows the second `%` line.
fn rest_line(progress: &mut Progress, len: u32, ended: bool) -> Stage
    requires { 0 < size_of len ended }
    ensures step { (lines : List Line) (skips : ℕ) →
        goes_on (before_of progress.old) (after_outer (before_of progress.old) len ended) (in_rest lines)
        ≡ answer_from skips result lines (before_of progress.new) }
    ensures grows { Grows (before_of progress.old) (before_of progress.new) }
{
    let line = progress.lines + 1;
    match progress.pass_outer(len, ended) {
        Ok(()) => Stage::Rest,
        Err(refusal) => Stage::Refused(fault_at(line, refusal)),
    }
}

/// Where the reader stands after the second `%` line.
fn last_percent(progress: &mut Progress, len: u32, ended: bool) -> Stage
    requires { 0 < size_of len ended }
    ensures step { (lines : List Line) (skips : ℕ) →
        goes_on (before_of progress.old) (after_percent (before_of progress.old) len ended) (in_rest lines)
        ≡ answer_from skips result lines (before_of progress.new) }
    ensures grows { Grows (before_of progress.old) (before_of progress.new) }
{
    let line = progress.lines + 1;
    match progress.pass_percent(len, ended) {
        Ok(()) => Stage::Rest,
        Err(refusal) => Stage::Refused(fault_at(line, refusal)),
    }
}

/// Takes a line of the programs that does not begin with `%`. Errors: its least refusal, or memory.
fn program_line(
    progress: &mut Progress,
    buffer: &mut LineBuffer,
    skips: u16,
    bytes: &[u8],
    len: u32,
    ended: bool,
) -> Result<(), Failing<Refusal>>
    requires some { 0 < size_of len ended }
    requires short { length bytes.now < 2 ^ 32 - 1 }
    requires within { counted_length (length bytes.now) ≤ len }
    ensures step { Gives (λ _. before_of progress.new) result
        (after_said (before_of progress.old) len ended (line_says skips bytes.now ended)) }
    ensures grows { Grows (before_of progress.old) (before_of progress.new) }
{
    match read_line(buffer, skips, bytes, ended) {
        Ok(said) => progress.pass_said(buffer.alloc, len, ended, said),
        Err(error) => Err(error),
    }
}

/// Where the reader stands after a line of the programs or the second `%` line. The only error is
/// that memory runs out.
fn body_line(
    progress: &mut Progress,
    buffer: &mut LineBuffer,
    skips: u16,
    kept: &[u8],
    len: u32,
    ended: bool,
) -> Result<Stage, NoMemory>
    requires some { 0 < size_of len ended }
    requires short { length kept.now < 2 ^ 32 - 1 }
    requires within { counted_length (length kept.now) ≤ len }
    ensures step { IfOk result (λ behind. (lines : List Line) →
        line_continued skips Stage.Body kept.now len ended lines (before_of progress.old)
        ≡ answer_from skips behind lines (before_of progress.new)) }
    ensures grows { Grows (before_of progress.old) (before_of progress.new) }
{
    if is_percent(kept) {
        return Ok(last_percent(progress, len, ended));
    }
    let line = progress.lines + 1;
    match program_line(progress, buffer, skips, kept, len, ended) {
        Ok(()) => Ok(Stage::Body),
        Err(Failing::Fault(refusal)) => Ok(Stage::Refused(fault_at(line, refusal))),
        Err(Failing::NoMemory) => Err(NoMemory),
    }
}

/// Where the reader stands after a line of this length, of which `kept` is kept, at any stage. The
/// only error is that memory runs out.
pub(crate) fn behind_line(
    stage: Stage,
    progress: &mut Progress,
    buffer: &mut LineBuffer,
    skips: u16,
    kept: &[u8],
    len: u32,
    ended: bool,
) -> Result<Stage, NoMemory>
    requires some { 0 < size_of len ended }
    requires short { length kept.now < 2 ^ 32 - 1 }
    requires within { counted_length (length kept.now) ≤ len }
    ensures step { IfOk result (λ behind. (lines : List Line) →
        line_continued skips stage kept.now len ended lines (before_of progress.old)
        ≡ answer_from skips behind lines (before_of progress.new)) }
    ensures grows { Grows (before_of progress.old) (before_of progress.new) }
    ensures same { (fault : TextFault) → stage ≡ Stage.Refused fault → result ≡ Ok (Stage.Refused fault) }
{
    match stage {
        Stage::Leader => Ok(leader_line(progress, kept, len, ended)),
        Stage::Body => body_line(progress, buffer, skips, kept, len, ended),
        Stage::Rest => Ok(rest_line(progress, len, ended)),
        Stage::Refused(fault) => Ok(Stage::Refused(fault)),
    }
}

/// Where the reader stands after a line that lies whole in a piece and that a line feed ends. The
/// only error is that memory runs out.
fn behind_whole_line(
    stage: Stage,
    progress: &mut Progress,
    buffer: &mut LineBuffer,
    skips: u16,
    bytes: &[u8],
) -> Result<Stage, NoMemory>
    ensures step { IfOk result (λ behind. (lines : List Line) →
        answer_from skips stage (record { bytes = bytes.now; ended = true } ∷ lines) (before_of progress.old)
        ≡ answer_from skips behind lines (before_of progress.new)) }
    ensures grows { Grows (before_of progress.old) (before_of progress.new) }
{
    let kept = kept_whole(stage, bytes)?;
    let len = longer(0, bytes);
    behind_line(stage, progress, buffer, skips, kept, len, true)
}

/// What is left to read of a text at this stage: all of it, or nothing if the text is refused.
fn left_to_read(stage: Stage, text: &[u8]) -> &[u8]
    ensures same { (skips : ℕ) (before : Before) → LeadsTo skips stage before text.now stage before result.now }
    ensures short { length result.now ≤ length text.now }
{
    match stage {
        Stage::Refused(_) => text.split_at(0).0,
        _ => text,
    }
}

/// Where the reader stands after the lines that end in a text, and what follows the last of them:
/// nothing if the text is refused. The only error is that memory runs out.
pub(crate) fn behind_lines<'a>(
    stage: Stage,
    progress: &mut Progress,
    buffer: &mut LineBuffer,
    skips: u16,
    text: &'a [u8],
) -> Result<(Stage, &'a [u8]), NoMemory>
    ensures reads { IfOk result (λ behind. LeadsTo skips stage (before_of progress.old) text.now
        behind.0 (before_of progress.new) behind.1.now) }
    ensures one_line { IfOk result (λ behind. IsOneLine behind.1.now) }
    ensures grows { Grows (before_of progress.old) (before_of progress.new) }
{
    let mut stage = stage;
    let mut rest = left_to_read(stage, text);
    while let Some((line, behind)) = cut_at_line_feed(rest) {
        stage = behind_whole_line(stage, progress, buffer, skips, line)?;
        rest = left_to_read(stage, behind);
    }
    Ok((stage, rest))
}
