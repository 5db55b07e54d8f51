//! A shop's tape in the language that the control runs, or its refusal. How it is written out is in
//! tape_plain.
ghost use Rattle.std.specs.Prelude.{◌≡◌, ◌≤◌, ◌++◌, length, OnOk, codes};
ghost use Rattle.text_pieces.specs.Pieces.{name_text};
ghost use Rattle.lathe_calls.specs.Answers.{Ends, IsJust, tells};
ghost use Rattle.lathe_calls.specs.declared.pair_texts.TheConstants.{LONGEST_SETTINGS};
ghost use Rattle.tape_calls.specs.Plained.{IsPlained, IsPlainRefusing, letter_text, named_text, cause_text, plain_refusal_text};
ghost use Rattle.tape_calls.specs.Texts.{texts_of};
ghost use Rattle.lathe_calls.specs.Statuses as exit;

use crate::tape_texts::TapeTexts;
use lathe_calls::{Status, write_text};
use nc_number::{Cause, Failing, NoMemory};
use nc_outside::Sink;
use plain_form::PlainCause;
use std::alloc::Global;
use tape_plain::{PlainTapeFault, plain_text};
use text_pieces::{push_bytes, push_numbered};

/// Writes this tape in the language that the control runs, or its refusal, and gives the exit
/// status.
pub(crate) fn plain_tape<K: Sink>(alloc: Global, texts: &TapeTexts<'_>, out: &mut K) -> u8
    requires { length texts.now.settings.now ≤ LONGEST_SETTINGS }
    ensures { Ends (IsPlained (texts_of texts.now)) (K.state out.old) (K.state out.new) result }
{
    match plain_text(alloc, texts.settings, texts.tape) {
        Ok(bytes) => write_text(out, &bytes, Status::Done as u8),
        Err(Failing::Fault(fault)) => refuse_plain(alloc, fault, out),
        Err(Failing::NoMemory) => Status::NoMemory as u8,
    }
}

/// Writes why the tape is not written out, and gives the exit status.
fn refuse_plain<K: Sink>(alloc: Global, fault: PlainTapeFault, out: &mut K) -> u8
    ensures { Ends (IsPlainRefusing fault) (K.state out.old) (K.state out.new) result }
{
    let number = fault.number();
    tell_plain_refusal(alloc, Cause::of_number(number), fault, out)
}

/// Writes the line of a refusal with its cause, and gives the exit status; if memory ran out,
/// nothing is written.
fn tell_plain_refusal<K: Sink>(
    alloc: Global,
    cause: Option<Cause>,
    fault: PlainTapeFault,
    out: &mut K,
) -> u8
    ensures { Ends (IsJust (tells exit.refused (plain_refusal_text cause fault)))
        (K.state out.old) (K.state out.new) result }
{
    let mut text = Vec::new(alloc);
    if push_plain_refusal(&mut text, cause, fault).is_err() {
        return Status::NoMemory as u8;
    }
    write_text(out, text.as_slice(), Status::Refused as u8)
}

/// Adds the line of a refusal. The only error is out of memory.
#[tactic(auto, unfolding(crate::specs::Plained::plain_refusal_text))]
fn push_plain_refusal(
    text: &mut Vec<u8>,
    cause: Option<Cause>,
    fault: PlainTapeFault,
) -> Result<(), NoMemory>
    ensures { OnOk result (text.new.items ≡ text.old.items ++ plain_refusal_text cause fault) }
{
    push_numbered(text, b"refused ", u64::from(fault.number()))?;
    push_cause(text, cause)?;
    push_numbered(text, b" line ", u64::from(fault.line()))?;
    push_plain_cause(text, fault)?;
    push_bytes(text, b"\n")
}

/// Adds the name of a cause, if there is one, with a blank before it. The only error is out of
/// memory.
fn push_cause(text: &mut Vec<u8>, cause: Option<Cause>) -> Result<(), NoMemory>
    ensures { OnOk result (text.new.items ≡ text.old.items ++ name_text cause) }
{
    match cause {
        Some(cause) => push_word(text, cause.name()),
        None => Ok(()),
    }
}

/// Adds a word, with a blank before it. The only error is out of memory.
fn push_word(text: &mut Vec<u8>, word: &str) -> Result<(), NoMemory>
    ensures { OnOk result (text.new.items ≡ text.old.items ++ (codes " " ++ word.now)) }
{
    push_bytes(text, b" ")?;
    push_bytes(text, word.as_bytes())
}

/// Adds the letter of the word at fault, if there is one, with a blank before it. The only error is
/// out of memory.
fn push_letter(text: &mut Vec<u8>, letter: Option<u8>) -> Result<(), NoMemory>
    ensures { OnOk result (text.new.items ≡ text.old.items ++ letter_text letter) }
{
    match letter {
        Some(letter) => push_bytes(text, &[b' ', letter]),
        None => Ok(()),
    }
}

/// Adds why a block is not written out. The only error is out of memory.
fn push_named(text: &mut Vec<u8>, cause: PlainCause) -> Result<(), NoMemory>
    ensures { OnOk result (text.new.items ≡ text.old.items ++ named_text cause) }
{
    push_word(text, cause.name())?;
    push_letter(text, cause.letter())
}

/// Adds why a block is not written out, if that is why the tape is refused. The only error is out
/// of memory.
fn push_plain_cause(text: &mut Vec<u8>, fault: PlainTapeFault) -> Result<(), NoMemory>
    ensures { OnOk result (text.new.items ≡ text.old.items ++ cause_text fault) }
{
    match fault {
        PlainTapeFault::NotPlain(fault) => push_named(text, fault.cause),
        _ => Ok(()),
    }
}
