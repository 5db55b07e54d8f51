//! The name of a number, and what it means, for those who have the number alone.
ghost use Rattle.nc_number.specs.Causes.{cause_name};
ghost use Rattle.cause_words.specs.Words.{AreWordsOf, IsNameOf};

use crate::meanings::meaning;
use nc_number::Cause;

/// The name that is printed beside a number; empty if no cause has it.
fn name_of(number: u8) -> &'static str
    ensures { AreWordsOf cause_name number result.now }
{
    match Cause::of_number(number) {
        Some(cause) => cause.name(),
        None => "",
    }
}

/// What a number means, in a sentence; empty if no cause has it.
fn meaning_of(number: u8) -> &'static str {
    match Cause::of_number(number) {
        Some(cause) => meaning(cause),
        None => "",
    }
}

/// The bytes of the name that is printed beside a number; none if no cause has it.
pub fn name_bytes(number: u16) -> &'static [u8]
    ensures { IsNameOf number result.now }
{
    match u8::try_from(number) {
        Ok(number) => name_of(number).as_bytes(),
        Err(_) => b"",
    }
}

/// The bytes of what a number means, a sentence; none if no cause has it.
pub fn meaning_bytes(number: u16) -> &'static [u8] {
    match u8::try_from(number) {
        Ok(number) => meaning_of(number).as_bytes(),
        Err(_) => b"",
    }
}
