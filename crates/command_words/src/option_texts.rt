//! The texts of the options of a command, as they were found in its words; making.rt makes the
//! command of them. A further option is a field here, and has its line in specs/Listed.antt
//! (`OptionTextsView`, `texts_for`), in specs/Making.antt (`texts_seen`), and where the words are
//! read (`texts_at`).

/// The text of each option, if it was given.
#[derive(Clone, Copy, Debug)]
pub struct OptionTexts<'a> {
    /// `--blocks`: the most blocks to run.
    pub blocks: Option<&'a str>,
    /// `--turret1`: the file of the turret of path 1.
    pub turret1: Option<&'a str>,
    /// `--turret2`: the file of the turret of path 2.
    pub turret2: Option<&'a str>,
    /// `--outside`: the range of programs that the tapes may lack.
    pub outside: Option<&'a str>,
}
