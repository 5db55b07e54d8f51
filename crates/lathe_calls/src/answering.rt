//! What is answered to three texts and a question: into a sink (`tell`), or into a caller's room
//! (`answer`). What is due to a question is told in judging.rt, running.rt, waiting.rt and
//! racing.rt.
ghost use Rattle.std.specs.Prelude.{◌<◌, ◌^◌, length};
ghost use Rattle.lathe_calls.specs.Answers.{Ends};
ghost use Rattle.lathe_calls.specs.Due.{IsAnswerTo, IsDueTo};
ghost use Rattle.lathe_calls.specs.Texts.{texts_of};

use crate::ending::Status;
use crate::handing::hand_text;
use crate::judging::judge;
use crate::pair_texts::PairTexts;
use crate::question::Question;
use crate::racing::list_races;
use crate::running::{report, show, trace};
use crate::said::Said;
use crate::text_sink::TextSink;
use crate::waiting::judge_waits;
use nc_outside::Sink;
use std::alloc::Global;

/// Writes what is due to the texts and a question, and gives its status. The program's commands
/// answer so over their files.
///
/// The status is that of [`answer`] with a text, or 5 if the sink failed, or 12 if memory ran out.
pub fn tell<K: Sink>(alloc: Global, texts: &PairTexts<'_>, question: Question, out: &mut K) -> u8
    requires { length texts.now.settings.now < 2 ^ 32 }
    ensures { Ends (IsDueTo question (texts_of texts.now)) (K.state out.old) (K.state out.new) result }
{
    match question {
        Question::Verify => judge(alloc, texts, out),
        Question::Run(limit) => report(alloc, texts, limit, out),
        Question::Trace(limit) => trace(alloc, texts, limit, out),
        Question::State(limit) => show(alloc, texts, limit, out),
        Question::Waits(outside) => judge_waits(alloc, texts, outside, out),
        Question::Races => list_races(alloc, texts, out),
    }
}

/// Answers a question about the texts: the front of the text that is due goes into the room, and
/// what lies behind it there stays as it was.
///
/// The status is the program's: 0, 1, 3, 10 or 14 with a text. Without one it is 12 if memory ran
/// out, or 13 if a text is longer than a file of its kind may be.
pub fn answer(alloc: Global, texts: &PairTexts<'_>, question: Question, room: &mut [u8]) -> Said
    ensures { IsAnswerTo question (texts_of texts.now) room.old room.new result }
{
    if !texts.are_fit() {
        return Said::nothing(Status::NoFile as u8);
    }
    let mut text = TextSink::empty(alloc);
    let status = tell(alloc, texts, question, &mut text);
    hand_text(status, text.as_slice(), room)
}
