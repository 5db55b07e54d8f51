//! Lines of a text, their ends, and the fields that count: comments have none.
ghost use Rattle.std.specs.Prelude.{◌≡◌, ◌<◌, ◌+◌, ◌∷◌, ◌==◌, length, position, option_map, IfOk};
ghost use Rattle.std.specs.Str.Lines.{lines, strip_carriage_return};
ghost use Rattle.field_lines.specs.Field.{texts};
ghost use Rattle.field_lines.specs.Line.{is_comment, line_fields};

use crate::field::fields;
use std::alloc::{AllocError, Global};

/// The place of the first line feed, if there is one.
fn line_end(text: &[u8]) -> Option<usize>
    ensures { result ≡ position (λ b. b == 10) text.now }
{
    text.iter().position(|b| *b == b'\n')
}

/// A line without the carriage return at its end.
fn without_carriage_return(line: &[u8]) -> &[u8]
    ensures { result.now ≡ strip_carriage_return line.now }
{
    match line {
        [front @ .., b'\r'] => front,
        _ => line,
    }
}

/// The first line of a text without what ends it, and the text after it.
pub fn cut_line(text: &[u8]) -> (&[u8], &[u8])
    requires { 0 < length text.now }
    ensures lines { lines text.now ≡ result.0.now ∷ lines result.1.now }
    ensures shorter { length result.1.now < length text.now }
{
    match line_end(text) {
        Some(at) => {
            let (line, _) = text.split_at(at);
            let (_, rest) = text.split_at(at + 1);
            (without_carriage_return(line), rest)
        }
        None => (text, &[]),
    }
}

/// Whether the line's first field begins with a bracket.
fn is_comment(fields: &[&[u8]]) -> bool
    ensures { result ≡ is_comment (texts fields.now) }
{
    match fields {
        [[b'(', ..], ..] => true,
        _ => false,
    }
}

/// The fields of a line: none of them for an empty line and for a comment, which begins with `(`;
/// `None` for a line that has a carriage return in it. The only error is out of memory.
#[tactic(auto, unfolding(crate::specs::Line::line_fields))]
pub fn line_fields(alloc: Global, line: &[u8]) -> Result<Option<Vec<&[u8]>>, AllocError>
    ensures { IfOk result (λ fields. option_map (λ v. texts v.items) fields ≡ line_fields line.now) }
{
    if line.contains(&b'\r') {
        return Ok(None);
    }
    let fields = fields(alloc, line)?;
    if is_comment(fields.as_slice()) {
        return Ok(Some(Vec::new(alloc)));
    }
    Ok(Some(fields))
}
