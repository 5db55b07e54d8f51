//! From a text to the settings of the cell, or to its first bad line. What a line says is in
//! named.rt.
ghost use Rattle.std.specs.Prelude.{◌≡◌, ◌<◌, ◌^◌, length};
ghost use Rattle.nc_number.specs.Answers.{GivesBy};
ghost use Rattle.nc_number.specs.Causes.{cause_number};
ghost use Rattle.cell_settings.specs.Cell.{settings_of};
ghost use Rattle.cell_settings.specs.View.{view, line_of};

use crate::named::read_line;
use crate::settings::Settings;
use field_lines::cut_line;
use nc_number::{Cause, Failing};
use std::alloc::Global;
use thiserror::Error;

/// The line of the settings that is not allowed, counted from 1.
#[derive(Clone, Copy, Debug, PartialEq, Eq, Error)]
#[error("line {line} of the settings is not allowed")]
pub struct SettingFault {
    /// The first line that is not allowed, from 1.
    pub line: u32,
}

impl SettingFault {
    /// The number of the refusal, that of [`BadSetting`](Cause::BadSetting).
    pub fn number(self) -> u8
        ensures { result ≡ cause_number Cause.BadSetting }
    {
        Cause::BadSetting.number()
    }
}

/// Reads the settings of the cell.
///
/// A line is empty, a comment that begins with `(`, or a name with its values, separated by spaces.
/// The error is the first line that is not allowed, or that memory ran out.
pub fn read_settings(alloc: Global, text: &[u8]) -> Result<Settings, Failing<SettingFault>>
    requires { length text.now < 2 ^ 32 }
    // The settings that the text gives, or the first line that is not allowed, unless memory runs
    // out.
    ensures exact { GivesBy view line_of result (settings_of text.now) }
{
    let mut settings = Settings::standard(alloc);
    let mut rest = text;
    let mut line = 0u32;
    while !rest.is_empty() {
        let (front, after) = cut_line(rest);
        line += 1;
        match read_line(alloc, front)? {
            Some(entry) => settings.take(entry)?,
            None => return Err(Failing::Fault(SettingFault { line })),
        }
        rest = after;
    }
    Ok(settings)
}
