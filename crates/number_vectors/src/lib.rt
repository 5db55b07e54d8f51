//! Tables of tests of the control's numbers, codes, variables and expressions: what each call
//! answers at both ends of its range, and the tree and the value of each text. They test the public
//! items of nc_number, code_tables, local_levels, common_vars, macro_expr and macro_eval. No crate
//! uses this one.
//!
//! The answers that are expected are worked by hand from the rules of the control, and never from
//! what a call answered. A table is a text with a row a line, and a row that does not hold is
//! named.
#![tactic(auto)]

#[cfg(test)]
mod levels;
#[cfg(test)]
mod literals;
#[cfg(test)]
mod long;
#[cfg(test)]
mod names;
#[cfg(test)]
mod trees;
#[cfg(test)]
mod values;
#[cfg(test)]
mod writes;
