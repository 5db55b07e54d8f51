//! The verdict on three texts: the line of an accepted pair, or of the refusal. For answering.rt;
//! the other questions write their refusals by `refuse`.
ghost use Rattle.std.specs.Prelude.{◌<◌, ◌^◌, length};
ghost use Rattle.lathe_calls.specs.Answers.{Ends};
ghost use Rattle.lathe_calls.specs.Judged.{IsAcceptance, IsJudged, IsRefusing};
ghost use Rattle.lathe_calls.specs.Texts.{texts_of};

use crate::ending::{Status, status_behind};
use crate::pair_texts::PairTexts;
use nc_number::Failing;
use nc_outside::Sink;
use nc_verify::{Refusal, Verified, verdict, write_verdict};
use std::alloc::Global;

/// Writes the line of an accepted pair, and gives status 0. The pair itself is dropped.
fn accept<K: Sink>(_pair: Verified, out: &mut K) -> u8
    ensures { Ends IsAcceptance (K.state out.old) (K.state out.new) result }
{
    status_behind(write_verdict(None, out), Status::Done as u8)
}

/// Writes the verdict on the texts, and gives its status.
pub(crate) fn judge<K: Sink>(alloc: Global, texts: &PairTexts<'_>, out: &mut K) -> u8
    requires { length texts.now.settings.now < 2 ^ 32 }
    ensures { Ends (IsJudged (texts_of texts.now)) (K.state out.old) (K.state out.new) result }
{
    match verdict(alloc, texts.left, texts.right, texts.settings) {
        Ok(pair) => accept(pair, out),
        Err(error) => refuse(&error, out),
    }
}

/// Writes the line of a refusal, and gives status 1. If memory ran out nothing is written, and the
/// status is 12.
pub fn refuse<K: Sink>(error: &Failing<Refusal>, out: &mut K) -> u8
    ensures { Ends (IsRefusing error.now) (K.state out.old) (K.state out.new) result }
{
    match error {
        Failing::Fault(refusal) => status_behind(
            write_verdict(Some(refusal), out),
            Status::Refused as u8,
        ),
        Failing::NoMemory => Status::NoMemory as u8,
    }
}
