//! The line of a tape that is being read: its length, and of its bytes those that are needed.
//! feed.rt keeps one from piece to piece; step.rt counts whole lines in the same way.
ghost use Rattle.std.specs.Prelude.{◌≡◌, ◌≤◌, ◌<◌, ◌+◌, ◌++◌, [], List, ℕ, length, take, IfOk, OnOk, OnErr};
ghost use Rattle.nc_number.specs.declared.limits.TheConstants.{LONGEST_TAPE};
ghost use Rattle.nc_text.specs.Lines.{IsOneLine};
ghost use Rattle.nc_text.specs.Reading.{counted_length, kept_of, more_kept, IsOpenLine};

use crate::stage::{Stage, is_body};
use nc_number::{LONGEST_TAPE, NoMemory};
use std::alloc::Global;

/// The bytes of a line are counted up to one more than a tape may have.
const COUNTED: u32 = LONGEST_TAPE as u32 + 1;

/// The most bytes that are kept of a line, 2 ^ 32 - 2. A line of the programs with more is answered
/// as out of memory.
const KEPT: usize = 4_294_967_294;

/// The line that is being read.
#[derive(Debug, Drop)]
pub(crate) struct OpenLine {
    /// Where in the tape the line stands: before, between or after the two `%` lines, or at a
    /// refusal.
    pub stage: Stage,
    /// Of its bytes only what is needed: all of a line of the programs, the first byte of any
    /// other, the `%` lines among these.
    pub kept: Vec<u8>,
    /// How many bytes it has, counted up to one more than a tape may have.
    pub len: u32,
    ghost kept_counted: { counted_length (length kept.items) ≤ len },
    ghost kept_short: { length kept.items ≤ 4294967294 },
    ghost len_short: { len ≤ LONGEST_TAPE + 1 },
}

impl OpenLine {
    /// A line of which nothing has come yet; it takes no memory.
    pub(crate) fn empty(alloc: Global, stage: Stage) -> Self
        ensures kept { result.kept.items ≡ [] }
        ensures len { result.len ≡ 0 }
        ensures stage { result.stage ≡ stage }
    {
        OpenLine {
            stage,
            kept: Vec::new(alloc),
            len: 0,
        }
    }

    /// A line that begins with these bytes. The only error is that memory runs out.
    pub(crate) fn begin(alloc: Global, stage: Stage, bytes: &[u8]) -> Result<Self, NoMemory>
        requires { IsOneLine bytes.now }
        ensures { IfOk result (λ line. (line.stage ≡ stage)
            × IsOpenLine line.stage line.kept.items line.len bytes.now) }
    {
        let mut line = OpenLine::empty(alloc, stage);
        line.extend(bytes)?;
        Ok(line)
    }

    /// Goes on with these bytes. If memory runs out, the line is as before.
    pub(crate) fn extend(&mut self, bytes: &[u8]) -> Result<(), NoMemory>
        ensures stage { self.new.stage ≡ self.old.stage }
        ensures kept { OnOk result (self.new.kept.items
            ≡ self.old.kept.items ++ more_kept self.old.stage self.old.kept.items bytes.now) }
        ensures len { OnOk result (self.new.len ≡ counted_length (self.old.len + length bytes.now)) }
        ensures as_before { OnErr result ((self.new.kept.items ≡ self.old.kept.items) × (self.new.len ≡ self.old.len)) }
    {
        let more = more_kept(self.stage, self.kept.as_slice(), bytes);
        if more.len() > KEPT - self.kept.len() {
            return Err(NoMemory);
        }
        self.kept.extend_from_slice(more)?;
        self.len = longer(self.len, bytes);
        Ok(())
    }

    /// Goes back to a moment when `kept` bytes were kept and the line was counted as `len` long.
    pub(crate) fn cut_back(&mut self, kept: usize, len: u32)
        requires short { counted_length kept ≤ len }
        requires fits { len ≤ LONGEST_TAPE + 1 }
        ensures stage { self.new.stage ≡ self.old.stage }
        ensures kept { self.new.kept.items ≡ take kept self.old.kept.items }
        ensures len { self.new.len ≡ len }
    {
        self.kept.truncate(kept);
        self.len = len;
    }
}

/// The length of a line of this length with these bytes more, as it is counted.
pub(crate) fn longer(len: u32, bytes: &[u8]) -> u32
    requires { len ≤ LONGEST_TAPE + 1 }
    ensures { result ≡ counted_length (len + length bytes.now) }
{
    match u32::try_from(bytes.len()) {
        Ok(more) if more <= COUNTED - len => len + more,
        _ => COUNTED,
    }
}

/// What is kept of a line that lies whole in a piece. More than `KEPT` bytes are answered as out of
/// memory.
pub(crate) fn kept_whole(stage: Stage, bytes: &[u8]) -> Result<&[u8], NoMemory>
    ensures value { IfOk result (λ kept. kept.now ≡ kept_of stage bytes.now) }
    ensures short { IfOk result (λ kept. length kept.now ≤ 4294967294) }
    ensures within { IfOk result (λ kept. length kept.now ≤ length bytes.now) }
{
    let kept = kept_of(stage, bytes);
    if kept.len() > KEPT {
        return Err(NoMemory);
    }
    Ok(kept)
}

/// What is kept of these bytes at the beginning of a line: all of a line of the programs, else the
/// first.
fn kept_of(stage: Stage, bytes: &[u8]) -> &[u8]
    ensures value { result.now ≡ kept_of stage bytes.now }
    ensures short { length result.now ≤ length bytes.now }
{
    match bytes {
        [] => bytes,
        [first, ..] => {
            if is_body(stage) && *first != b'%' {
                bytes
            } else {
                bytes.split_at(1).0
            }
        }
    }
}

/// What is kept of these bytes, which go on a line of which `kept` is kept.
fn more_kept<'a>(stage: Stage, kept: &[u8], bytes: &'a [u8]) -> &'a [u8]
    ensures value { result.now ≡ more_kept stage kept.now bytes.now }
    ensures short { length result.now ≤ length bytes.now }
{
    match kept {
        [] => kept_of(stage, bytes),
        [first, ..] => {
            if is_body(stage) && *first != b'%' {
                bytes
            } else {
                bytes.split_at(0).0
            }
        }
    }
}
