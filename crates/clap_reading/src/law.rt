//! The law that `clap` reads what is listed, as the contract of a function that does nothing: who
//! calls it has the law. `read_words` (reading.rt) does.
ghost use Rattle.std.specs.Prelude.{◌≡◌, ℕ, List, All, IsUtf8};
ghost use Rattle.clap_reading.specs.ClapReading.{clap_command};
ghost use Rattle.command_words.specs.Listed.{listed_command};

/// The command that `clap` reads in any words, which are texts, is the listed one: if it refuses
/// the words there is none, and else the subcommand that it met names the row, and the texts that
/// it found are the row's words and options.
pub fn law_of_clap()
    ensures { (words : List (List ℕ)) → All IsUtf8 words → clap_command words ≡ listed_command words }
{}
