//! What holds of a tape that was written out. The law is the contract of a function that does nothing.
ghost use Rattle.std.specs.Prelude.{◌≡◌, ℕ, List, Ok};
ghost use Rattle.block_words.specs.declared.dialect.Dialect.{Dialect};
ghost use Rattle.nc_text.specs.declared.tape.Program.{Program};
ghost use Rattle.nc_text.specs.Tape.{tape_of};
ghost use Rattle.plain_blocks.specs.Calm.{AreOwn};
ghost use Rattle.plain_form.specs.declared.settings.FormSettings.{FormSettings};
ghost use Rattle.tape_plain.specs.Plain.{plain_of};

/// A tape whose blocks are all of this control's language is written out as itself, byte for byte.
pub fn a_plain_tape_stays()
    ensures { (dialect : Dialect) (forms : FormSettings) (text : List ℕ) (tape : List Program) → tape_of 0 text ≡ Ok tape
        → AreOwn dialect tape → plain_of dialect forms text ≡ Ok text }
{}
