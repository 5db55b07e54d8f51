//! Numbers on the command line, such as `14` of `--blocks 14`. specs/Number.antt says what such a
//! number is; making.rt reads them here.
ghost use Rattle.std.specs.Prelude.{◌≡◌};
ghost use Rattle.std.specs.Char.{is_ascii_digit};
ghost use Rattle.std.specs.List.{list_all};
ghost use Rattle.command_words.specs.Number.{is_numeral, number_of};

/// The most digits of a number on the command line; leading zeros count.
const MOST_DIGITS: usize = 7;

/// The number that the text writes: one to seven decimal digits and nothing else, with a value from
/// `low` to `high`.
pub(crate) fn read_number(text: &str, low: u32, high: u32) -> Option<u32>
    ensures { result ≡ number_of low high text.now }
{
    if !is_numeral_text(text) {
        return None;
    }
    let value = text.parse::<u32>().ok()?;
    if low <= value && value <= high {
        Some(value)
    } else {
        None
    }
}

/// Whether the text is one to seven decimal digits and nothing else.
fn is_numeral_text(text: &str) -> bool
    ensures { result ≡ is_numeral text.now }
{
    1 <= text.len() && text.len() <= MOST_DIGITS && has_digits_alone(text)
}

/// Whether each byte is a decimal digit; an empty text passes.
fn has_digits_alone(text: &str) -> bool
    ensures { result ≡ list_all is_ascii_digit text.now }
{
    text.bytes().all(|byte| byte.is_ascii_digit())
}
