//! Laws of the made pairs, each the contract of a function that does nothing: what a reader may
//! rely on of `make N` without reading the text of a tape. No crate calls them.
ghost use Rattle.std.specs.Prelude.{◌≡◌, ◌≢◌, ℕ, ◌+◌, ◌<◌, ◌≤◌, ◌^◌, [], ◌∷◌, ◌++◌, codes, filter, length, map};
ghost use Rattle.std.specs.Str.Lines.{lines};
ghost use Rattle.nc_number.specs.declared.path.Path.{Path};
ghost use Rattle.nc_number.specs.declared.path.Path.TheVariants.{One, Two};
ghost use Rattle.tape_maker.specs.MadeTape.{begins_with_m, cut_depth, cut_diameter, made_lines, made_tape, rounds, wait_code, wait_line};

use crate::tape::LONGEST_MADE;

/// A made tape reads as the lines of its definition, and these are 5,006: four at the head, a
/// hundred for each of the fifty rounds, two at the end. All but the two `%` and the program's
/// number are blocks.
pub fn law_of_lines()
    ensures read { (path : Path) (number : ℕ) → lines (made_tape path number) ≡ made_lines path number }
    ensures count { (path : Path) (number : ℕ) → length (made_lines path number) ≡ 5006 }
{}

/// The lines of a made tape that begin with M are fifty waits and then `M30`, and which waits these
/// are depends on the number alone: both paths wait for each other at the same codes in the same
/// order. The codes are waiting codes, and no two waits that follow each other have the same one.
pub fn law_of_waits()
    ensures waits { (path : Path) (number : ℕ) → filter begins_with_m (made_lines path number)
        ≡ map (wait_line number) rounds ++ codes "M30" ∷ [] }
    ensures lowest { (number round : ℕ) → 100 ≤ wait_code number round }
    ensures highest { (number round : ℕ) → wait_code number round ≤ 197 }
    ensures turns { (number round : ℕ) → wait_code number (round + 1) ≢ wait_code number round }
{}

/// A made tape has at most 74,389 bytes, and both tapes of a pair, with empty settings, fit a run's
/// header, whose eighteen bytes and three texts are fewer than 2^32 together.
pub fn law_of_sizes()
    ensures longest { (path : Path) (number : ℕ) → length (made_tape path number) ≤ LONGEST_MADE }
    ensures header { (number : ℕ) → 18 + (length (made_tape One number) + length (made_tape Two number)) < 2 ^ 32 }
{}

/// Cuts stay between diameters of 10 mm and 99 mm, and within 79 mm before the zero of Z.
pub fn law_of_cuts()
    ensures narrowest { (path : Path) (number round cut : ℕ) → 10 ≤ cut_diameter path number round cut }
    ensures widest { (path : Path) (number round cut : ℕ) → cut_diameter path number round cut ≤ 99 }
    ensures deepest { (number round cut : ℕ) → cut_depth number round cut ≤ 79 }
{}
