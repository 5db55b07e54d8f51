//! A reader of tapes that come in pieces: the only way to a [`Tape`](crate::Tape). What it keeps
//! between pieces is in feed.rt.
ghost use Rattle.std.specs.Prelude.{◌≡◌, [], ◌++◌, ℕ, List, IfOk, IsOk, OnOk};
ghost use Rattle.nc_number.specs.Answers.{Gives};
ghost use Rattle.nc_text.specs.declared.fault.TextFault.{TextFault};
ghost use Rattle.nc_text.specs.Tape.{tape_of};
ghost use Rattle.nc_text.specs.Reading.{HasRead, HasRefused, IsRefused, IfRefused};
ghost use Rattle.nc_text.specs.Decided.{IsDecided, AnswersFault};

use crate::fault::TextFault;
use crate::feed::Feed;
use crate::tape::Tape;
use nc_number::{Failing, NoMemory};
use std::alloc::Global;
use std::marker::Model;

/// Reads a tape that comes in pieces.
///
/// The answer of `finish` depends on the joined bytes alone. Of them the reader keeps the tape so
/// far and the present line; of a line outside the two `%` lines it keeps one byte at most.
#[derive(Debug, Drop)]
pub struct Reader {
    /// What the reader keeps from piece to piece.
    feed: Feed,
}

impl Model for Reader {
    ghost use Rattle.nc_text.specs.Reading.{State};

    ghost Value = { State };

    ghost use Rattle.nc_text.specs.FeedView.{state_of};

    ghost view = { λ r. state_of r.feed };
}

impl Reader {
    /// A reader that was given nothing. Bit n of `skips` is switch n: a block with the skip sign of
    /// a switch that is set counts as absent, but must be readable.
    pub fn new(alloc: Global, skips: u16) -> Result<Reader, NoMemory>
        // It takes no memory yet.
        ensures made { IsOk result }
        ensures reads { IfOk result (λ reader. HasRead reader skips []) }
    {
        Ok(Reader {
            feed: Feed::new(alloc, skips),
        })
    }

    /// Takes the next piece of the tape. It refuses if the lines that have ended decide the answer,
    /// whatever follows; from then on every call gives the same refusal. If memory ran out, the
    /// piece was not taken, and can be given again.
    pub fn feed(&mut self, piece: &[u8]) -> Result<(), Failing<TextFault>>
        ensures reads { (skips : ℕ) (bytes : List ℕ) → HasRead self.old skips bytes
            → OnOk result (HasRead self.new skips (bytes ++ piece.now)) }
        ensures refuses { (skips : ℕ) (bytes : List ℕ) → HasRead self.old skips bytes
            → IfRefused result (λ fault. IsRefused skips (bytes ++ piece.now) fault) }
        // What the lines that have ended decide is answered at once, whatever pieces they came in.
        ensures decided { (skips : ℕ) (bytes : List ℕ) (fault : TextFault) → HasRead self.old skips bytes
            → IsDecided skips (bytes ++ piece.now) fault → AnswersFault result fault }
        ensures refused { IfRefused result (λ fault. HasRefused self.new fault) }
        // A reader that comes to a refusal says so in the same call.
        ensures at_once { (fault : TextFault) → HasRefused self.new fault → result ≡ Err (Failing.Fault fault) }
        ensures same { (fault : TextFault) → HasRefused self.old fault → (result ≡ Err (Failing.Fault fault))
            × (self.new ≡ self.old) }
        ensures as_before { result ≡ Err Failing.NoMemory → self.new ≡ self.old }
    {
        if let Some(fault) = self.feed.refusal() {
            return Err(Failing::Fault(fault));
        }
        self.feed.take(piece)?;
        if let Some(fault) = self.feed.refusal() {
            return Err(Failing::Fault(fault));
        }
        Ok(())
    }

    /// Ends the tape, and answers its programs or its refusal: that of the least line at which one
    /// holds, and there the least number. That it has no O number or no second `%` line counts only
    /// if no line is refused.
    pub fn finish(self) -> Result<Tape, Failing<TextFault>>
        ensures exact { (skips : ℕ) (bytes : List ℕ) → HasRead self skips bytes
            → Gives (λ tape. tape) result (tape_of skips bytes) }
        ensures same { (fault : TextFault) → HasRefused self fault → result ≡ Err (Failing.Fault fault) }
    {
        let Reader { feed } = self;
        feed.finish()
    }
}
