//! The command `plain`: a shop's tape in the language that the control runs. What is due to the
//! texts of a tape and its settings is in tape_calls.
ghost use Rattle.std.specs.Prelude.{option_map};
ghost use Rattle.lathe_calls.specs.Answers.{Ends};
ghost use Rattle.lathe_looks.specs.Fetched.{IsOfFiles};
ghost use Rattle.lathe_looks.specs.Named.{tape_texts, tape_with_settings};
ghost use Rattle.tape_calls.specs.Plained.{IsPlained};

use crate::fetching::{fetch_tape_texts, tell_unfetched};
use nc_outside::{Shelf, Sink};
use std::alloc::Global;
use tape_calls::{TapeQuestion, TapeTexts, tell_tape};

/// Writes the tape in the language that the control runs, as the settings say that it is read, and
/// gives the exit status: 0; 1 if the settings or the tape are refused; that of a file that can't be
/// read; 5 if the sink failed; or 12 if memory ran out. Without a name the settings are empty.
pub fn plain<H: Shelf, K: Sink>(
    alloc: Global,
    name: &str,
    settings: Option<&str>,
    shelf: &mut H,
    out: &mut K,
) -> u8
    ensures { Ends (IsOfFiles tape_texts (tape_with_settings name.now (option_map (λ s. s.now) settings.entry)) (Unit {0})
        IsPlained (H.state shelf.old) (H.state shelf.new))
        (K.state out.old) (K.state out.new) result }
{
    match fetch_tape_texts(alloc, shelf, name, settings) {
        Ok(texts) => tell_tape(
            alloc,
            &TapeTexts::of(&texts.tape, &texts.settings),
            TapeQuestion::Plain,
            out,
        ),
        Err(error) => tell_unfetched(alloc, &error, out),
    }
}
