//! The meetings of texts that are read for their waits alone.
//! For this crate alone: answering.rt uses it.
ghost use Rattle.std.specs.Prelude.{◌<◌, ◌^◌, length};
ghost use Rattle.open_order.specs.Basis.{trust_view};
ghost use Rattle.wait_verify.specs.Printed.{waits_text};
ghost use Rattle.lathe_calls.specs.Answers.{Ends, IsJust, tells};
ghost use Rattle.lathe_calls.specs.Statuses as exit;
ghost use Rattle.lathe_calls.specs.Waited.{AreWaits};
ghost use Rattle.lathe_calls.specs.Texts.{texts_of};

use crate::ending::{Status, write_text};
use crate::judging::refuse;
use crate::pair_texts::PairTexts;
use nc_outside::Sink;
use open_order::Outside;
use std::alloc::Global;
use wait_verify::{WaitPair, push_waits, verdict};

/// Writes the text of a pair that is accepted for its waits.
fn tell_waits<K: Sink>(alloc: Global, pair: &WaitPair, out: &mut K) -> u8
    ensures { Ends (IsJust (tells exit.done
        (waits_text pair.now.labels.one pair.now.labels.two (trust_view pair.now.trust))))
        (K.state out.old) (K.state out.new) result }
{
    let mut text = Vec::new(alloc);
    if push_waits(&mut text, pair).is_err() {
        return Status::NoMemory as u8;
    }
    write_text(out, text.as_slice(), Status::Done as u8)
}

/// Writes the meetings of the texts, or their refusal, and gives the status.
pub(crate) fn judge_waits<K: Sink>(
    alloc: Global,
    texts: &PairTexts<'_>,
    outside: Option<Outside>,
    out: &mut K,
) -> u8
    requires { length texts.now.settings.now < 2 ^ 32 }
    ensures { Ends (AreWaits outside (texts_of texts.now)) (K.state out.old) (K.state out.new) result }
{
    match verdict(alloc, texts.left, texts.right, texts.settings, outside) {
        Ok(pair) => tell_waits(alloc, &pair, out),
        Err(error) => refuse(&error, out),
    }
}
