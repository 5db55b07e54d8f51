//! That the program and the library agree. The law is the contract of a function that does nothing.
//! No crate calls it: it says to a reader what `ask` answers.
ghost use Rattle.std.specs.Prelude.{◌≡◌, ◌⊎◌, ℕ, List, Option, Some};
ghost use Rattle.nc_outside.specs.Faults.{Rose};
ghost use Rattle.nc_outside.specs.Files.{Files, ShelfState};
ghost use Rattle.lathe_calls.specs.Answers.{Answer, nothing};
ghost use Rattle.lathe_looks.specs.Fetched.{AreTexts, IsOfFiles};
ghost use Rattle.lathe_looks.specs.Named.{files_of, pair_texts};
ghost use Rattle.lathe_calls.specs.declared.question.Question.{Question};
ghost use Rattle.lathe_calls.specs.Due.{IsDueTo};

/// A command of the program that answers a question of its files answers what is due to the texts
/// of these files: if a shelf has such texts under the names, and does not fail, then what is due
/// to the command is due to the texts, or is no text because memory ran out. The commands `verify`,
/// `waits`, `races` and `trace` are such commands: [`ask`](crate::ask) answers them.
pub fn the_program_answers_what_the_library_answers()
    ensures { (files : Files) (old new : ShelfState) (left right : List ℕ) (settings : Option (List ℕ)) (texts : List (List ℕ))
        → (question : Question) (answer : Answer) → old.files ≡ Some files → (Rose old.faults new.faults → ⊥)
        → AreTexts (Some files) (files_of left right settings) texts
        → IsOfFiles pair_texts (files_of left right settings) (Unit {0}) (IsDueTo question) old new answer
        → (answer ≡ nothing) ⊎ IsDueTo question (pair_texts texts) answer }
{}
