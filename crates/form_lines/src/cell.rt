//! The lines of the cell among those of the settings.
ghost use Rattle.std.specs.Prelude.{◌≡◌, ◌<◌, ◌^◌, ◌++◌, false, length, OnOk, IfOk};
ghost use Rattle.std.specs.Str.Lines.{lines};
ghost use Rattle.form_lines.specs.Cell.{is_choice, kept_line, end_before, line_text, text_from, cell_text};

use crate::naming::read_line;
use field_lines::cut_line;
use nc_number::NoMemory;
use std::alloc::Global;

/// Puts the bytes.
fn push_all(out: &mut Vec<u8>, bytes: &[u8]) -> Result<(), NoMemory>
    ensures { OnOk result (out.new.items ≡ out.old.items ++ bytes.now) }
{
    out.extend_from_slice(bytes)?;
    Ok(())
}

/// Whether a line says a choice of the forms.
fn is_choice(alloc: Global, line: &[u8]) -> Result<bool, NoMemory>
    ensures { IfOk result (λ is. is ≡ is_choice line.now) }
{
    let choice = read_line(alloc, line)?;
    Ok(choice.is_some())
}

/// Puts a line, unless it says a choice of the forms.
fn push_kept(alloc: Global, out: &mut Vec<u8>, line: &[u8]) -> Result<(), NoMemory>
    ensures { OnOk result (out.new.items ≡ out.old.items ++ kept_line line.now) }
{
    if is_choice(alloc, line)? {
        return Ok(());
    }
    push_all(out, line)
}

/// Puts what ends the line before, if there is one.
fn push_end(out: &mut Vec<u8>, begun: bool) -> Result<(), NoMemory>
    ensures { OnOk result (out.new.items ≡ out.old.items ++ end_before begun) }
{
    if begun { push_all(out, b"\n") } else { Ok(()) }
}

/// Puts a line of the cell, or an empty one in place of a choice.
fn push_line(alloc: Global, out: &mut Vec<u8>, begun: bool, line: &[u8]) -> Result<(), NoMemory>
    ensures { OnOk result (out.new.items ≡ out.old.items ++ line_text begun line.now) }
{
    push_end(out, begun)?;
    push_kept(alloc, out, line)?;
    Ok(())
}

/// The lines of the cell.
fn cell_lines(alloc: Global, text: &[u8]) -> Result<Vec<u8>, NoMemory>
    ensures { IfOk result (λ out. out.items ≡ cell_text text.now) }
{
    let mut out = Vec::new(alloc);
    let mut begun = false;
    let mut rest = text;
    while !rest.is_empty() {
        let (front, after) = cut_line(rest);
        push_line(alloc, &mut out, begun, front)?;
        begun = true;
        rest = after;
    }
    Ok(out)
}

/// The text without the lines that say a choice of the forms: an empty line stands for each. The
/// only error is out of memory.
pub fn cell_text(alloc: Global, text: &[u8]) -> Result<Vec<u8>, NoMemory>
    ensures { IfOk result (λ out. (out.items ≡ cell_text text.now) × (length out.items < 2 ^ 32)) }
{
    let out = cell_lines(alloc, text)?;
    if out.len() < 1 << 32 {
        Ok(out)
    } else {
        Err(NoMemory)
    }
}
