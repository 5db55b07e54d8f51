//! Laws of the command words, each the contract of a function that does nothing. They say what the
//! grammar of specs/Listed.antt allows, for readers; no other proof rests on them.
ghost use Rattle.std.specs.Prelude.{◌≡◌, ℕ, true, List, [], ◌∷◌, ◌++◌, Some, codes};
ghost use Rattle.std.specs.List.{list_all};
ghost use Rattle.command_words.specs.Listed.{AreNames, IsName, IsOptionOf, given, gives_a_command, long_word};
ghost use Rattle.command_words.specs.Table.{listings, names_stand_once, outside_options, run_options, turret_options};

/// No two rows have the same name, and each gives a command for as many words `1` as it must have,
/// and for as many as it may have.
pub fn law_of_rows()
    ensures names { names_stand_once listings ≡ true }
    ensures commands { list_all gives_a_command listings ≡ true }
{}

/// After a command's name, words that do not begin with `-` are names, and so is `-` itself; after
/// `--` every word is a name.
pub fn law_of_names()
    ensures names { (options words : List (List ℕ)) → AreNames words
        → given options words ≡ Some (record { names = words; marked = [] }) }
    ensures dashes { (options before after : List (List ℕ)) → AreNames before
        → given options (before ++ codes "--" ∷ after) ≡ Some (record { names = before ++ after; marked = [] }) }
{}

/// An option may stand anywhere among the names, with its text after `=`, or as the next word if
/// that may be a name. `--blocks`, `--outside`, `--turret1` and `--turret2` are such options.
pub fn law_of_options()
    ensures apart { (options before after : List (List ℕ)) (id text : List ℕ) → IsOptionOf options id
        → AreNames before → IsName text → AreNames after
        → given options (before ++ long_word id ∷ text ∷ after)
        ≡ Some (record { names = before ++ after; marked = (id, text) ∷ [] }) }
    ensures attached { (options before after : List (List ℕ)) (id text : List ℕ) → IsOptionOf options id
        → AreNames before → AreNames after
        → given options (before ++ (long_word id ++ 61 ∷ text) ∷ after)
        ≡ Some (record { names = before ++ after; marked = (id, text) ∷ [] }) }
    ensures blocks { IsOptionOf run_options (codes "blocks") }
    ensures outside { IsOptionOf outside_options (codes "outside") }
    ensures turret1 { IsOptionOf run_options (codes "turret1") × IsOptionOf turret_options (codes "turret1") }
    ensures turret2 { IsOptionOf run_options (codes "turret2") × IsOptionOf turret_options (codes "turret2") }
{}
