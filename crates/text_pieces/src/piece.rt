//! A piece of a text: up to 512 bytes in an array, for one call of a sink. A clause `requires` says
//! how much room a call asks for.
ghost use Rattle.std.specs.Prelude.{◌≡◌, ◌+◌, ◌≤◌, ◌%◌, [], ◌++◌, length, codes, decimal};
ghost use Rattle.text_pieces.specs.declared.piece.TheConstants.{MOST_BYTES};
ghost use Rattle.nc_number.specs.Printed.{last_digits, length_text, value_text};
ghost use Rattle.text_pieces.specs.Pieces.{code_text, name_text, text_with_number, path_name, place_text, point_text};

use arrayvec::ArrayVec;
use itoa::Buffer;
use nc_number::{Cause, Path, Point, Value};
use std::marker::Model;

/// The most bytes of a piece.
pub const MOST_BYTES: usize = 512;

/// A piece of a text, of which each part is put behind what is there. It takes no memory.
#[derive(Drop)]
pub struct Piece {
    /// The bytes so far, in order.
    bytes: ArrayVec<u8, MOST_BYTES>,
}

impl Model for Piece {
    ghost use Rattle.std.specs.Prelude.{List, ℕ};

    ghost Value = { List ℕ };

    ghost view = { λ p. p.bytes.items };
}

impl Piece {
    /// A piece without a byte.
    pub fn empty() -> Self
        ensures { result ≡ [] }
    {
        Piece {
            bytes: ArrayVec::new(),
        }
    }

    /// The bytes of the piece, in order.
    pub fn as_slice(&self) -> &[u8]
        ensures { result.now ≡ self.now }
    {
        self.bytes.as_slice()
    }

    /// Adds bytes as they are.
    pub fn add(&mut self, bytes: &[u8])
        requires { length self.old + length bytes.now ≤ MOST_BYTES }
        ensures text { self.new ≡ self.old ++ bytes.now }
        ensures size { length self.new ≡ length self.old + length bytes.now }
    {
        self.bytes.try_extend_from_slice(bytes).unwrap();
    }

    /// Adds a whole number in decimal digits.
    pub fn add_number(&mut self, number: u64)
        requires { length self.old + 20 ≤ MOST_BYTES }
        ensures text { self.new ≡ self.old ++ decimal number }
        ensures size { length self.new ≤ length self.old + 20 }
    {
        let mut buffer = Buffer::new();
        self.add(buffer.format(number).as_bytes());
    }

    /// Adds bytes as they are, and a number after them.
    pub fn add_numbered(&mut self, before: &[u8], number: u64)
        requires { length self.old + length before.now + 20 ≤ MOST_BYTES }
        ensures text { self.new ≡ self.old ++ text_with_number before.now number }
        ensures size { length self.new ≤ length self.old + length before.now + 20 }
    {
        self.add(before);
        self.add_number(number);
    }

    /// Adds a count in decimal digits.
    pub fn add_count(&mut self, count: u128)
        requires { length self.old + 40 ≤ MOST_BYTES }
        ensures text { self.new ≡ self.old ++ decimal count }
        ensures size { length self.new ≤ length self.old + 40 }
    {
        let mut buffer = Buffer::new();
        self.add(buffer.format(count).as_bytes());
    }

    /// Adds a length, given in 0.001 mm, in mm with three decimals.
    pub fn add_length(&mut self, increments: i64)
        requires { length self.old + 24 ≤ MOST_BYTES }
        ensures text { self.new ≡ self.old ++ length_text increments }
        ensures size { length self.new ≤ length self.old + 24 }
    {
        let mut room = [0; 24];
        let end = nc_number::length_text(increments, &mut room);
        self.add(&room[..end]);
    }

    /// Adds a value without the zeros that its fraction ends with.
    pub fn add_value(&mut self, value: Value)
        requires { length self.old + 24 ≤ MOST_BYTES }
        ensures text { self.new ≡ self.old ++ value_text value }
        ensures size { length self.new ≤ length self.old + 24 }
    {
        let mut room = [0; 24];
        let end = nc_number::text(value, &mut room);
        self.add(&room[..end]);
    }

    /// Adds the last four digits of a number.
    pub fn add_four_digits(&mut self, number: u16)
        requires { length self.old + 4 ≤ MOST_BYTES }
        ensures text { self.new ≡ self.old ++ last_digits 4 number }
        ensures size { length self.new ≡ length self.old + 4 }
    {
        self.add(&[
            digit(number / 10 / 10 / 10),
            digit(number / 10 / 10),
            digit(number / 10),
            digit(number),
        ]);
    }

    /// Adds a G or M code, which has at least two digits.
    #[tactic(auto, unfolding(crate::specs::Pieces::code_text))]
    pub fn add_code(&mut self, code: u16)
        requires { length self.old + 21 ≤ MOST_BYTES }
        ensures text { self.new ≡ self.old ++ code_text code }
        ensures size { length self.new ≤ length self.old + 21 }
    {
        if code < 10 {
            self.add(b"0");
        }
        self.add_number(u64::from(code));
    }

    /// Adds a path as `path` and its number.
    #[tactic(auto, unfolding(crate::specs::Pieces::path_name))]
    pub fn add_path(&mut self, path: Path)
        requires { length self.old + 25 ≤ MOST_BYTES }
        ensures text { self.new ≡ self.old ++ path_name path }
        ensures size { length self.new ≤ length self.old + 25 }
    {
        self.add(b"path ");
        self.add_number(u64::from(path.number()));
    }

    /// Adds a blank and the name of a cause, if there is one.
    #[tactic(auto, using(crate::proofs::NameRoom::name_room))]
    pub fn add_name(&mut self, cause: Option<Cause>)
        requires { length self.old + 20 ≤ MOST_BYTES }
        ensures text { self.new ≡ self.old ++ name_text cause }
        ensures size { length self.new ≤ length self.old + 20 }
    {
        if let Some(cause) = cause {
            self.add(b" ");
            self.add(cause.name().as_bytes());
        }
    }

    /// Adds a path by its number, and a line of its tape.
    #[tactic(auto, unfolding(crate::specs::Pieces::place_text))]
    pub fn add_place(&mut self, path: u8, line: u32)
        requires { length self.old + 52 ≤ MOST_BYTES }
        ensures text { self.new ≡ self.old ++ place_text path line }
        ensures size { length self.new ≤ length self.old + 52 }
    {
        self.add_numbered(b" path ", u64::from(path));
        self.add_numbered(b" line ", u64::from(line));
    }

    /// Adds the X and the Z of a point, given in 0.001 mm, in mm with three decimals.
    #[tactic(auto, unfolding(crate::specs::Pieces::point_text))]
    pub fn add_point(&mut self, to: Point)
        requires { length self.old + 52 ≤ MOST_BYTES }
        ensures text { self.new ≡ self.old ++ point_text to }
        ensures size { length self.new ≤ length self.old + 52 }
    {
        self.add(b" X");
        self.add_length(to.x);
        self.add(b" Z");
        self.add_length(to.z);
    }
}

/// The last digit of a number.
fn digit(number: u16) -> u8
    ensures { result ≡ 48 + number % 10 }
{
    b'0' + (number % 10) as u8
}
