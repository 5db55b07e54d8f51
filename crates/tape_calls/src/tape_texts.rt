//! The texts of one tape and its settings, as a caller lends them, and whether a call takes them.
ghost use Rattle.std.specs.Prelude.{◌≡◌};
ghost use Rattle.tape_calls.specs.Texts.{are_fit, tape_and_settings, texts_of};

use lathe_calls::LONGEST_SETTINGS;
use nc_number::LONGEST_TAPE;

/// The texts of a call: a tape, and its settings. Without settings their text is empty.
#[derive(Clone, Copy, Debug)]
pub struct TapeTexts<'a> {
    /// The tape.
    pub tape: &'a [u8],
    /// The settings.
    pub settings: &'a [u8],
}

impl<'a> TapeTexts<'a> {
    /// A tape and its settings.
    pub fn of(tape: &'a [u8], settings: &'a [u8]) -> TapeTexts<'a>
        ensures { texts_of result ≡ tape_and_settings tape.now settings.now }
    {
        TapeTexts { tape, settings }
    }

    /// Whether neither text is longer than a file of its kind may be.
    pub fn are_fit(&self) -> bool
        ensures { result ≡ are_fit (texts_of self.now) }
    {
        self.tape.len() <= LONGEST_TAPE && self.settings.len() <= LONGEST_SETTINGS
    }
}
