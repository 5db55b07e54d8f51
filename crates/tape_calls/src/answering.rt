//! What is answered to a tape, its settings and a question: into a sink (`tell_tape`), or into a
//! caller's room (`answer_tape`).
ghost use Rattle.std.specs.Prelude.{◌≤◌, length};
ghost use Rattle.lathe_calls.specs.Answers.{Ends};
ghost use Rattle.lathe_calls.specs.declared.pair_texts.TheConstants.{LONGEST_SETTINGS};
ghost use Rattle.tape_calls.specs.Due.{IsDueToTape, IsTapeAnswer};
ghost use Rattle.tape_calls.specs.Texts.{texts_of};

use crate::expanding::expand_text;
use crate::plaining::plain_tape;
use crate::question::TapeQuestion;
use crate::tape_texts::TapeTexts;
use lathe_calls::{Said, Status, TextSink, hand_text};
use nc_outside::Sink;
use std::alloc::Global;

/// Writes what is due to the texts and a question, and gives its status. The program's commands
/// answer so over their files.
///
/// The status is 0; 1 if the settings or the tape are refused; 5 if the sink failed; or 12 if
/// memory ran out.
pub fn tell_tape<K: Sink>(
    alloc: Global,
    texts: &TapeTexts<'_>,
    question: TapeQuestion,
    out: &mut K,
) -> u8
    requires { length texts.now.settings.now ≤ LONGEST_SETTINGS }
    ensures { Ends (IsDueToTape question (texts_of texts.now)) (K.state out.old) (K.state out.new) result }
{
    match question {
        TapeQuestion::Expand => expand_text(alloc, texts.tape, out),
        TapeQuestion::Plain => plain_tape(alloc, texts, out),
    }
}

/// Answers a question about a tape: the front of the text that is due goes into the room, and what
/// lies behind it there stays as it was.
///
/// The status is 0 or 1 with a text. Without one it is 12 if memory ran out, or 13 if a text is
/// longer than a file of its kind may be.
pub fn answer_tape(
    alloc: Global,
    texts: &TapeTexts<'_>,
    question: TapeQuestion,
    room: &mut [u8],
) -> Said
    ensures { IsTapeAnswer question (texts_of texts.now) room.old room.new result }
{
    if !texts.are_fit() {
        return Said::nothing(Status::NoFile as u8);
    }
    let mut text = TextSink::empty(alloc);
    let status = tell_tape(alloc, texts, question, &mut text);
    hand_text(status, text.as_slice(), room)
}
