//! What a reader keeps from one piece of a tape's text to the next, and what a piece does to it.
//! [`Reader`](crate::Reader) is this type made public; step.rt reads one line at a time.
ghost use Rattle.std.specs.Prelude.{◌≡◌, ◌∷◌, [], ◌++◌, List, ℕ, IfOk, OnOk, OnErr};
ghost use Rattle.nc_number.specs.Answers.{Gives};
ghost use Rattle.nc_text.specs.Lines.{IsOneLine};
ghost use Rattle.nc_text.specs.declared.fault.TextFault.{TextFault};
ghost use Rattle.nc_text.specs.Tape.{Before, tape_of};
ghost use Rattle.nc_text.specs.View.{before_of};
ghost use Rattle.nc_text.specs.Mark.{Grows};
ghost use Rattle.nc_text.specs.Reading.{answer_from, refusal_of, LeadsTo, IsOpenLine, HasRead, HasRefused};

use crate::fault::TextFault;
use crate::line_feed::cut_at_line_feed;
use crate::open_line::OpenLine;
use crate::progress::Progress;
use crate::stage::{Stage, refusal_of};
use crate::step::{behind_line, behind_lines};
use crate::tape::Tape;
use line_text::{LineBuffer, Refusal};
use nc_number::{Failing, NoMemory};
use std::alloc::Global;

/// What a reader keeps.
#[derive(Debug, Drop)]
pub(crate) struct Feed {
    /// Room for the reading of a line, which is used again and again.
    pub buffer: LineBuffer,
    /// Bit n is skip switch n.
    pub skips: u16,
    /// The present line: the one that has begun and not ended.
    pub line: OpenLine,
    /// What was read before the present line.
    pub progress: Progress,
}

impl Feed {
    ghost use Rattle.nc_text.specs.FeedView.{state_of};

    /// What a reader keeps before its first piece; it takes no memory yet.
    pub(crate) fn new(alloc: Global, skips: u16) -> Self
        ensures { HasRead (state_of result) skips [] }
    {
        Feed {
            buffer: LineBuffer::new(alloc),
            skips,
            line: OpenLine::empty(alloc, Stage::Leader),
            progress: Progress::new(alloc),
        }
    }

    /// Takes a piece of the text. If memory runs out, all is as before.
    pub(crate) fn take(&mut self, piece: &[u8]) -> Result<(), NoMemory>
        ensures reads { OnOk result ((skips : ℕ) (bytes : List ℕ) → HasRead (state_of self.old) skips bytes
            → HasRead (state_of self.new) skips (bytes ++ piece.now)) }
        ensures as_before { OnErr result (state_of self.new ≡ state_of self.old) }
    {
        match cut_at_line_feed(piece) {
            None => self.line.extend(piece),
            Some((front, behind)) => self.take_lines(front, behind),
        }
    }

    /// Takes the rest of the present line, its line feed and what comes after that. If memory runs
    /// out, all is as before.
    fn take_lines(&mut self, front: &[u8], behind: &[u8]) -> Result<(), NoMemory>
        requires { IsOneLine front.now }
        ensures reads { OnOk result ((skips : ℕ) (bytes : List ℕ) → HasRead (state_of self.old) skips bytes
            → HasRead (state_of self.new) skips (bytes ++ (front.now ++ 10 ∷ behind.now))) }
        ensures as_before { OnErr result (state_of self.new ≡ state_of self.old) }
    {
        let mark = self.progress.mark();
        let kept = self.line.kept.len();
        let len = self.line.len;
        self.line.extend(front)?;
        match line_behind(
            &mut self.buffer,
            self.skips,
            &self.line,
            &mut self.progress,
            behind,
        ) {
            Ok(line) => {
                self.line = line;
                Ok(())
            }
            Err(NoMemory) => {
                self.line.cut_back(kept, len);
                self.progress.cut_back(&mark);
                Err(NoMemory)
            }
        }
    }

    /// The refusal of the text, if it is refused.
    pub(crate) fn refusal(&self) -> Option<TextFault>
        ensures { result ≡ refusal_of self.now.line.stage }
    {
        refusal_of(self.line.stage)
    }

    /// Ends the text, and with it the present line. Errors: the one refusal of the text, or memory.
    pub(crate) fn finish(self) -> Result<Tape, Failing<TextFault>>
        ensures exact { (skips : ℕ) (bytes : List ℕ) → HasRead (state_of self) skips bytes
            → Gives (λ tape. tape) result (tape_of skips bytes) }
        ensures same { (fault : TextFault) → HasRefused (state_of self) fault → result ≡ Err (Failing.Fault fault) }
    {
        let Feed {
            buffer,
            skips,
            line,
            progress,
        } = self;
        if line.len == 0 {
            return conclude(line.stage, progress);
        }
        let mut progress = progress;
        let mut buffer = buffer;
        let stage = behind_line(
            line.stage,
            &mut progress,
            &mut buffer,
            skips,
            line.kept.as_slice(),
            line.len,
            false,
        )?;
        conclude(stage, progress)
    }
}

/// Ends the present line, reads the lines that end in `behind`, and gives the line that has begun
/// after those. The only error is that memory runs out.
fn line_behind(
    buffer: &mut LineBuffer,
    skips: u16,
    line: &OpenLine,
    progress: &mut Progress,
    behind: &[u8],
) -> Result<OpenLine, NoMemory>
    ensures reads { IfOk result (λ next. (bytes : List ℕ)
        → IsOpenLine line.now.stage line.now.kept.items line.now.len bytes →
        (rest : List ℕ) × IsOpenLine next.stage next.kept.items next.len rest
        × LeadsTo skips line.now.stage (before_of progress.old) (bytes ++ 10 ∷ behind.now)
        next.stage (before_of progress.new) rest) }
    ensures grows { Grows (before_of progress.old) (before_of progress.new) }
{
    let stage = behind_line(
        line.stage,
        progress,
        buffer,
        skips,
        line.kept.as_slice(),
        line.len,
        true,
    )?;
    let (stage, rest) = behind_lines(stage, progress, buffer, skips, behind)?;
    let next = OpenLine::begin(buffer.alloc, stage, rest)?;
    Ok(next)
}

/// The tape, or its refusal, when no line is left to read.
fn conclude(stage: Stage, progress: Progress) -> Result<Tape, Failing<TextFault>>
    ensures exact { (skips : ℕ) → Gives (λ tape. tape) result (answer_from skips stage [] (before_of progress)) }
    ensures same { (fault : TextFault) → stage ≡ Stage.Refused fault → result ≡ Err (Failing.Fault fault) }
{
    match stage {
        Stage::Leader => Err(Failing::Fault(not_begun())),
        Stage::Body => Err(Failing::Fault(progress.unfinished())),
        Stage::Rest => progress.finish(),
        Stage::Refused(fault) => Err(Failing::Fault(fault)),
    }
}

/// The refusal of a text without a `%` line: 13 at line 1.
fn not_begun() -> TextFault
    ensures { result ≡ record { number = 13; line = 1 } }
{
    TextFault {
        number: Refusal::NoProgramNumber.number(),
        line: 1,
    }
}
