//! The commands that answer a question of the files of a pair: `verify`, `waits`, `races` and
//! `trace`. What is due to the texts is in lathe_calls.
ghost use Rattle.std.specs.Prelude.{◌≡◌};
ghost use Rattle.lathe_calls.specs.Answers.{Ends};
ghost use Rattle.lathe_calls.specs.Due.{IsDueTo};
ghost use Rattle.lathe_calls.specs.Texts.{texts_of as lent_texts};
ghost use Rattle.lathe_looks.specs.Fetched.{IsOfFiles};
ghost use Rattle.lathe_looks.specs.Named.{pair_texts};
ghost use Rattle.lathe_looks.specs.Texts.{files_in, texts_of};

use crate::fetching::{Texts, fetch_texts, tell_unfetched};
use crate::files::FileNames;
use lathe_calls::{PairTexts, Question, tell};
use nc_outside::{Shelf, Sink};
use std::alloc::Global;

/// Writes what is due to the texts of the files and a question, and gives the exit status. Settings
/// that are not named are empty. If a file can't be read, that is written instead. What is due is what the library answers to these
/// texts.
pub fn ask<H: Shelf, K: Sink>(
    alloc: Global,
    names: &FileNames<'_>,
    question: Question,
    shelf: &mut H,
    out: &mut K,
) -> u8
    ensures { Ends (IsOfFiles pair_texts (files_in names.now) (Unit {0}) (IsDueTo question)
        (H.state shelf.old) (H.state shelf.new)) (K.state out.old) (K.state out.new) result }
{
    match fetch_texts(alloc, shelf, names) {
        Ok(texts) => tell(alloc, &lent(&texts), question, out),
        Err(error) => tell_unfetched(alloc, &error, out),
    }
}

/// The three texts as lathe_calls takes them.
pub(crate) fn lent(texts: &Texts) -> PairTexts<'_>
    ensures { lent_texts result ≡ texts_of texts.now }
{
    PairTexts::of(
        texts.tapes.one.as_slice(),
        texts.tapes.two.as_slice(),
        texts.settings.as_slice(),
    )
}
