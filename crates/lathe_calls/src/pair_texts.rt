//! The three texts of a pair, as a caller lends them, and whether a call takes them. The modules
//! that answer use it.
ghost use Rattle.std.specs.Prelude.{◌≡◌};
ghost use Rattle.lathe_calls.specs.Texts.{are_fit, texts_of, three_texts};

use nc_number::LONGEST_TAPE;

/// How many bytes the settings of a cell may have at most. lathe_looks bounds the files of `zones`
/// and `edit` by it too; race_vectors has a copy in src/listing.rt.
pub const LONGEST_SETTINGS: usize = 65_536;

/// The texts of a call: the tape of path 1, that of path 2, and the settings of the cell.
#[derive(Clone, Copy, Debug)]
pub struct PairTexts<'a> {
    /// The tape of path 1.
    pub left: &'a [u8],
    /// The tape of path 2.
    pub right: &'a [u8],
    /// The settings of the cell.
    pub settings: &'a [u8],
}

impl<'a> PairTexts<'a> {
    /// The tape of path 1, that of path 2, and the settings.
    pub fn of(left: &'a [u8], right: &'a [u8], settings: &'a [u8]) -> PairTexts<'a>
        ensures { texts_of result ≡ three_texts left.now right.now settings.now }
    {
        PairTexts {
            left,
            right,
            settings,
        }
    }

    /// Whether none of the texts is longer than a file of its kind may be.
    pub fn are_fit(&self) -> bool
        ensures { result ≡ are_fit (texts_of self.now) }
    {
        self.left.len() <= LONGEST_TAPE
            && self.right.len() <= LONGEST_TAPE
            && self.settings.len() <= LONGEST_SETTINGS
    }
}
