//! What the fields of a line of the settings say, by its first word: a function for each name, as
//! specs/Entry.antt defines them. For reading.rt of this crate alone.
ghost use Rattle.std.specs.Prelude.{◌≡◌, IfOk, IfSome};
ghost use Rattle.field_lines.specs.Field.{texts};
ghost use Rattle.field_lines.specs.Line.{line_says};
ghost use Rattle.cell_settings.specs.Entry.{wait_of, shared100_of, shared500_of, paths_of, codes_of, skip_of, unskip_of, place_of, home_of, records_of, named_of, named_point_of, fields_say, IsAllowed};

use crate::entry::Entry;
use crate::preset_line::read_preset;
use code_tables::System;
use field_lines::{line_fields, number_in, read_path, read_point};
use nc_number::MOST_RECORDS;
use std::alloc::{AllocError, Global};

/// What `wait` and its values say: the first and the last waiting code, 100 to 999.
#[tactic(auto, unfolding(crate::specs::Entry::wait_of))]
fn wait(values: &[&[u8]]) -> Option<Entry>
    ensures value { result ≡ wait_of (texts values.now) }
    ensures allowed { IfSome result IsAllowed }
{
    match values {
        [first, last] => {
            let low = number_in(100, 999, first)?;
            let high = number_in(low, 999, last)?;
            Some(Entry::Wait {
                low: low as u16,
                high: high as u16,
            })
        }
        _ => None,
    }
}

/// What `shared100` and its value say: how many variables from #100 on are shared, at most 100.
#[tactic(auto, unfolding(crate::specs::Entry::shared100_of))]
fn shared100(values: &[&[u8]]) -> Option<Entry>
    ensures value { result ≡ shared100_of (texts values.now) }
    ensures allowed { IfSome result IsAllowed }
{
    match values {
        [count] => Some(Entry::Shared100(number_in(0, 100, count)?)),
        _ => None,
    }
}

/// What `shared500` and its value say: how many variables from #500 on are shared, at most 500.
#[tactic(auto, unfolding(crate::specs::Entry::shared500_of))]
fn shared500(values: &[&[u8]]) -> Option<Entry>
    ensures value { result ≡ shared500_of (texts values.now) }
    ensures allowed { IfSome result IsAllowed }
{
    match values {
        [count] => Some(Entry::Shared500(number_in(0, 500, count)?)),
        _ => None,
    }
}

/// What `paths` and its value say: the P of a wait names the paths by bits or by numbers.
#[tactic(auto, unfolding(crate::specs::Entry::paths_of))]
fn paths(values: &[&[u8]]) -> Option<Entry>
    ensures value { result ≡ paths_of (texts values.now) }
    ensures allowed { IfSome result IsAllowed }
{
    match values {
        [form] => {
            if *form == b"bits".as_slice() {
                Some(Entry::Paths { bits: true })
            } else if *form == b"numbers".as_slice() {
                Some(Entry::Paths { bits: false })
            } else {
                None
            }
        }
        _ => None,
    }
}

/// What `codes` and its value say: the system of the tapes' G codes, A or B.
#[tactic(auto, unfolding(crate::specs::Entry::codes_of))]
fn codes(values: &[&[u8]]) -> Option<Entry>
    ensures value { result ≡ codes_of (texts values.now) }
    ensures allowed { IfSome result IsAllowed }
{
    match values {
        [system] => {
            if *system == b"A".as_slice() {
                Some(Entry::Codes { system: System::A })
            } else if *system == b"B".as_slice() {
                Some(Entry::Codes { system: System::B })
            } else {
                None
            }
        }
        _ => None,
    }
}

/// What `skip` and its values say: a skip switch of a path that is fixed as on, 1 to 9.
#[tactic(auto, unfolding(crate::specs::Entry::skip_of))]
fn skip(values: &[&[u8]]) -> Option<Entry>
    ensures value { result ≡ skip_of (texts values.now) }
    ensures allowed { IfSome result IsAllowed }
{
    match values {
        [path, switch] => {
            let path = read_path(path)?;
            let switch = number_in(1, 9, switch)?;
            Some(Entry::Skip {
                path,
                switch: switch as u8,
            })
        }
        _ => None,
    }
}

/// What `unskip` and its values say: a skip switch of a path that is fixed as off, 1 to 9.
#[tactic(auto, unfolding(crate::specs::Entry::unskip_of))]
fn unskip(values: &[&[u8]]) -> Option<Entry>
    ensures value { result ≡ unskip_of (texts values.now) }
    ensures allowed { IfSome result IsAllowed }
{
    match values {
        [path, switch] => {
            let path = read_path(path)?;
            let switch = number_in(1, 9, switch)?;
            Some(Entry::Unskip {
                path,
                switch: switch as u8,
            })
        }
        _ => None,
    }
}

/// What the values of `place` say: the opening position of a path.
#[tactic(auto, unfolding(crate::specs::Entry::place_of))]
fn place(values: &[&[u8]]) -> Option<Entry>
    ensures value { result ≡ place_of (texts values.now) }
    ensures allowed { IfSome result IsAllowed }
{
    match values {
        [path, x, z] => {
            let path = read_path(path)?;
            let to = read_point(x, z)?;
            Some(Entry::Place { path, to })
        }
        _ => None,
    }
}

/// What the values of `home` say: the reference position of a path.
#[tactic(auto, unfolding(crate::specs::Entry::home_of))]
fn home(values: &[&[u8]]) -> Option<Entry>
    ensures value { result ≡ home_of (texts values.now) }
    ensures allowed { IfSome result IsAllowed }
{
    match values {
        [path, x, z] => {
            let path = read_path(path)?;
            let to = read_point(x, z)?;
            Some(Entry::Home { path, to })
        }
        _ => None,
    }
}

/// What `records` and its value say: how many records the journal may have, at most 4,000,000.
#[tactic(auto, unfolding(crate::specs::Entry::records_of))]
fn records(values: &[&[u8]]) -> Option<Entry>
    ensures value { result ≡ records_of (texts values.now) }
    ensures allowed { IfSome result IsAllowed }
{
    match values {
        [count] => Some(Entry::Records(number_in(1, MOST_RECORDS, count)?)),
        _ => None,
    }
}

/// What a name and its values say, if it is none of a position or an offset.
#[tactic(auto, unfolding(crate::specs::Entry::named_of))]
fn named(name: &[u8], values: &[&[u8]]) -> Option<Entry>
    ensures value { result ≡ named_of name.now (texts values.now) }
    ensures allowed { IfSome result IsAllowed }
{
    if name == b"wait".as_slice() {
        wait(values)
    } else if name == b"shared100".as_slice() {
        shared100(values)
    } else if name == b"shared500".as_slice() {
        shared500(values)
    } else if name == b"paths".as_slice() {
        paths(values)
    } else if name == b"codes".as_slice() {
        codes(values)
    } else if name == b"skip".as_slice() {
        skip(values)
    } else if name == b"unskip".as_slice() {
        unskip(values)
    } else if name == b"records".as_slice() {
        records(values)
    } else {
        None
    }
}

/// What a name and its values say, if they are allowed.
#[tactic(auto, unfolding(crate::specs::Entry::named_point_of))]
fn named_point(name: &[u8], values: &[&[u8]]) -> Option<Entry>
    ensures value { result ≡ named_point_of name.now (texts values.now) }
    ensures allowed { IfSome result IsAllowed }
{
    if name == b"place".as_slice() {
        place(values)
    } else if name == b"home".as_slice() {
        home(values)
    } else {
        match read_preset(name, values) {
            Some(preset) => Some(Entry::Offset(preset)),
            None => named(name, values),
        }
    }
}

/// What the fields of a line say, if they are allowed. No field says nothing.
#[tactic(auto, unfolding(crate::specs::Entry::fields_say))]
fn read_fields(fields: &[&[u8]]) -> Option<Entry>
    ensures value { result ≡ fields_say (texts fields.now) }
    ensures allowed { IfSome result IsAllowed }
{
    match fields {
        [] => Some(Entry::Nothing),
        [name, values @ ..] => named_point(name, values),
    }
}

/// What a line says, if it is allowed. The only error is out of memory.
#[tactic(auto, unfolding(field_lines::specs::Line::line_says))]
pub(crate) fn read_line(alloc: Global, line: &[u8]) -> Result<Option<Entry>, AllocError>
    ensures value { IfOk result (λ entry. entry ≡ line_says fields_say line.now) }
    ensures allowed { IfOk result (λ entry. IfSome entry IsAllowed) }
{
    match line_fields(alloc, line)? {
        Some(fields) => Ok(read_fields(fields.as_slice())),
        None => Ok(None),
    }
}
