//! The list of races that is due to three texts. What a race is, is in race_order.
//! For this crate alone: answering.rt uses it.
ghost use Rattle.std.specs.Prelude.{◌<◌, ◌^◌, length};
ghost use Rattle.lathe_calls.specs.Answers.{Ends};
ghost use Rattle.lathe_calls.specs.Due.{IsOfPair};
ghost use Rattle.lathe_calls.specs.Races.{IsRaceAnswer};
ghost use Rattle.lathe_calls.specs.Texts.{texts_of};

use crate::ending::{Status, status_behind};
use crate::judging::refuse;
use crate::pair_texts::PairTexts;
use nc_outside::Sink;
use nc_verify::{Verified, verdict};
use race_report::{races, write_races};
use std::alloc::Global;

/// Writes the list of the races of a pair, and gives its status.
fn tell_races<K: Sink>(alloc: Global, pair: &Verified, out: &mut K) -> u8
    ensures { Ends (IsRaceAnswer pair.now) (K.state out.old) (K.state out.new) result }
{
    match races(alloc, pair) {
        Ok(list) => status_behind(write_races(&list, out), Status::Done as u8),
        Err(_) => Status::NoMemory as u8,
    }
}

/// Writes the races of the texts, or their refusal, and gives the status.
pub(crate) fn list_races<K: Sink>(alloc: Global, texts: &PairTexts<'_>, out: &mut K) -> u8
    requires { length texts.now.settings.now < 2 ^ 32 }
    ensures { Ends (IsOfPair IsRaceAnswer (texts_of texts.now)) (K.state out.old) (K.state out.new) result }
{
    match verdict(alloc, texts.left, texts.right, texts.settings) {
        Ok(pair) => tell_races(alloc, &pair, out),
        Err(error) => refuse(&error, out),
    }
}
