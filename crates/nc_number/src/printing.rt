//! How values and lengths are printed, into 24 bytes of the caller's.
ghost use Rattle.std.specs.Prelude.{◌≡◌, ◌+◌, ◌++◌, ◌∷◌, ◌%◌, ◌≤◌, length, take, decimal};
ghost use Rattle.std.specs.Fmt.{sign_text};
ghost use Rattle.nc_number.specs.Printed.{last_digits, without_trailing_zeros, fraction_text, value_text, length_text};

use crate::value::Value;
use itoa::Buffer;

/// Millionths in a unit.
const MICRO_IN_UNIT: u64 = 1_000_000;

/// Increments of 0.001 mm in a millimetre.
const INCREMENTS_IN_MM: u64 = 1_000;

/// Puts the piece after the first `at` bytes, and gives the place after it.
fn put(into: &mut [u8; 24], at: usize, piece: &[u8]) -> usize
    requires { at + length piece.now ≤ 24 }
    ensures end { result ≡ at + length piece.now }
    ensures written { take result into.new ≡ take at into.old ++ piece.now }
{
    let end = at + piece.len();
    into[at..end].copy_from_slice(piece);
    end
}

/// Writes `-` where the number is negative. It gives the end of what is written.
fn put_sign(into: &mut [u8; 24], negative: bool) -> usize
    ensures end { result ≡ length (sign_text negative) }
    ensures short { result ≤ 1 }
    ensures written { take result into.new ≡ sign_text negative }
{
    if negative { put(into, 0, b"-") } else { 0 }
}

/// Writes the digits of a number after what is written. It gives their end.
fn put_whole(into: &mut [u8; 24], at: usize, number: u64) -> usize
    requires { at + length (decimal number) ≤ 24 }
    ensures end { result ≡ at + length (decimal number) }
    ensures written { take result into.new ≡ take at into.old ++ decimal number }
{
    let mut digits = Buffer::new();
    put(into, at, digits.format(number).as_bytes())
}

/// The byte of the number's last digit.
fn digit(number: u64) -> u8
    ensures value { result ≡ 48 + number % 10 }
{
    b'0' + (number % 10) as u8
}

/// The last three digits, with their leading zeros.
fn three_digits(number: u64) -> [u8; 3]
    ensures { result ≡ last_digits 3 number }
{
    [digit(number / 10 / 10), digit(number / 10), digit(number)]
}

/// The last six digits, with their leading zeros.
fn six_digits(number: u64) -> [u8; 6]
    ensures { result ≡ last_digits 6 number }
{
    let front = three_digits(number / 10 / 10 / 10);
    let back = three_digits(number);
    [front[0], front[1], front[2], back[0], back[1], back[2]]
}

/// The digits without the zeros that they end with.
fn trimmed(digits: &[u8]) -> &[u8]
    ensures digits { result.now ≡ without_trailing_zeros digits.now }
    ensures shorter { length result.now ≤ length digits.now }
{
    match digits.split_last() {
        Some((last, front)) => {
            if *last == b'0' {
                trimmed(front)
            } else {
                digits
            }
        }
        None => digits,
    }
}

/// Writes a point and the fraction after what is written, or nothing where the fraction is 0. It
/// gives the end.
fn put_fraction(into: &mut [u8; 24], at: usize, millionths: u64) -> usize
    requires { at ≤ 17 }
    ensures end { result ≡ at + length (fraction_text millionths) }
    ensures room { result ≤ at + 7 }
    ensures written { take result into.new ≡ take at into.old ++ fraction_text millionths }
{
    if millionths == 0 {
        return at;
    }
    let at = put(into, at, b".");
    put(into, at, trimmed(&six_digits(millionths)))
}

/// Writes a value: `-` below 0, the whole part, and, if the fraction is not 0, a point and the
/// fraction without the zeros at its end. It gives the number of bytes written.
#[tactic(auto, using(crate::proofs::PrintedRoom::value_room))]
pub fn text(a: Value, into: &mut [u8; 24]) -> usize
    ensures written { take result into.new ≡ value_text a }
    ensures size { result ≡ length (value_text a) }
    ensures room { result ≤ 24 }
{
    let micro = a.micro();
    let size = micro.unsigned_abs();
    let at = put_sign(into, micro < 0);
    let at = put_whole(into, at, size / MICRO_IN_UNIT);
    put_fraction(into, at, size % MICRO_IN_UNIT)
}

/// Writes a length of so many increments of 0.001 mm in millimetres: `-` below 0, the whole part,
/// and always three decimals. It gives the number of bytes written.
#[tactic(auto, using(crate::proofs::PrintedRoom::length_room))]
pub fn length_text(a: i64, into: &mut [u8; 24]) -> usize
    ensures written { take result into.new ≡ length_text a }
    ensures size { result ≡ length (length_text a) }
    ensures room { result ≤ 24 }
{
    let size = a.unsigned_abs();
    let at = put_sign(into, a < 0);
    let at = put_whole(into, at, size / INCREMENTS_IN_MM);
    let at = put(into, at, b".");
    put(into, at, &three_digits(size % INCREMENTS_IN_MM))
}
