//! Numbers of the control: exact decimal values, points, axes and paths, the literals of a tape,
//! and what every layer shares: the table of alarms and refusals, errors, and the words of
//! contracts.
//!
//! A layer above sees a [`Value`] as its whole count of millionths, and each call as an equation on
//! such counts: sums, differences and remainders exact, products and quotients rounded to the
//! nearest, halves away from zero, roots cut, and Overflow exactly past the range. Most crates
//! above use this one.
#![tactic(auto)]

mod arithmetic;
mod axis;
mod bits;
mod both;
mod byte_list;
mod cause;
mod fault;
mod laws;
mod limits;
mod list_of;
mod literal;
mod options;
mod path;
mod point;
mod printing;
mod refused;
mod rounding;
mod value;

pub use arithmetic::{abs, add, div, modulo, mul, neg, sqrt, sub};
pub use axis::Axis;
pub use bits::{bit_and, bit_or, bit_xor};
pub use both::Both;
pub use byte_list::ByteList;
pub use cause::Cause;
pub use fault::{Failed, Failing, NoMemory, NumberFault};
pub use limits::{
    LARGEST_MICRO, LARGEST_WHOLE, LAST_SEQUENCE, LONGEST_LINE, LONGEST_SAID, LONGEST_TAPE,
    MOST_BLOCKS, MOST_BRACKETS, MOST_LABELS, MOST_PENDING, MOST_READS, MOST_RECORDS,
};
pub use list_of::ListOf;
pub use literal::{Literal, is_literal, parse_word, unsigned};
pub use options::lesser;
pub use path::Path;
pub use point::{Point, TOOL_OFFSETS, TRAVEL};
pub use printing::{length_text, text};
pub use refused::Refused;
pub use rounding::{fix, fup, round, to_increment};
pub use value::{Value, Var};

// For users of the library: laws that no crate of the program takes.
pub use laws::{
    a_fraction_is_dropped, a_literal_is_a_sign_digits_and_a_fraction,
    a_literal_without_a_point_counts_thousandths, a_magnitude_is_raised,
    a_nearest_quotient_is_nearest, a_number_has_one_cause, a_printed_length_reads_back,
    a_printed_value_reads_back, a_remainder_keeps_the_sign, a_root_is_the_greatest,
    a_whole_number_is_its_units, halves_go_away_from_zero, what_reads_is_a_value,
};
