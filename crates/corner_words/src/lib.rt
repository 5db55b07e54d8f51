//! The form of corners: blocks of G01 that name a chamfer or a rounding before the next line, by
//! `,C` and `,R`, or the angle of their line, by `,A`: words of the small letters c, r and a. Such a
//! block and those after it, up to the first line without a corner, are written out as lines to each
//! corner's start, and a line or an arc to its end; or the line at fault is refused with its cause.
#![tactic(auto)]

mod cut;
mod form;
mod run;
mod said;

pub use form::corners_form;
