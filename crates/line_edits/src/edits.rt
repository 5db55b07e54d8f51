//! A text in which some lines give way to others. Which lines those are, the crate above says.
ghost use Rattle.std.specs.Prelude.{◌≡◌, ◌<◌, ◌^◌, ◌++◌, ◌∷◌, [], IfOk, OnOk, drop};
ghost use Rattle.nc_text.specs.Lines.{lines_of};
ghost use Rattle.line_edits.specs.Splice.{edited_lines, spliced_text, is_due, first_new, line_behind};

use nc_number::ByteList;
use std::alloc::{AllocError, Global};

/// A change of a text: what stands in place of a line and its line feed.
#[derive(Debug, Drop)]
pub struct Edit {
    /// The line, from 1.
    pub line: u32,
    /// The bytes that stand in place of the line and its line feed; none if the line goes.
    pub new: ByteList,
}

/// The text with edits, which are in the order of their lines.
pub fn edited(alloc: Global, text: &[u8], edits: &[Edit]) -> Result<Vec<u8>, AllocError>
    ensures { IfOk result (λ bytes. bytes.items ≡ edited_lines 1 edits.now (lines_of text.now)) }
{
    let bytes = splice(alloc, text, edits)?;
    Ok(bytes)
}

/// The text with edits, byte by byte: the bytes of a line that an edit names go, and its line feed,
/// if it has one, gives way to the edit's bytes.
fn splice(alloc: Global, text: &[u8], edits: &[Edit]) -> Result<Vec<u8>, AllocError>
    ensures { IfOk result (λ v. v.items ≡ spliced_text 1 edits.now text.now) }
{
    let mut out = Vec::new(alloc);
    let mut line = 1u128;
    let mut rest = edits;
    for b in text {
        if is_due(line, rest) {
            if *b == b'\n' {
                push_first(&mut out, rest)?;
                rest = behind_first(rest);
                line += 1;
                continue;
            }
            continue;
        }
        push_byte(&mut out, *b)?;
        line = line_behind(line, *b);
    }
    Ok(out)
}

/// Puts a byte that stays after those so far.
fn push_byte(out: &mut Vec<u8>, b: u8) -> Result<(), AllocError>
    ensures ok { OnOk result (out.new.items ≡ out.old.items ++ b ∷ []) }
{
    out.push(b)?;
    Ok(())
}

/// Whether the first of the edits is of this line. They are in the order of their lines, so only
/// the first can be.
fn is_due(line: u128, edits: &[Edit]) -> bool
    ensures { result ≡ is_due line edits.now }
{
    match edits.first() {
        Some(edit) => line == u128::from(edit.line),
        None => false,
    }
}

/// The line after this byte: the next one after a line feed, else the same.
fn line_behind(line: u128, b: u8) -> u128
    requires { line < 2 ^ 127 }
    ensures { result ≡ line_behind line b }
{
    if b == b'\n' { line + 1 } else { line }
}

/// The edits after the first.
fn behind_first(edits: &[Edit]) -> &[Edit]
    ensures { result.now ≡ drop 1 edits.now }
{
    edits.get(1..).unwrap_or(edits)
}

/// Puts what the first of the edits has in place of its line.
fn push_first(out: &mut Vec<u8>, edits: &[Edit]) -> Result<(), AllocError>
    ensures ok { OnOk result (out.new.items ≡ out.old.items ++ first_new edits.now) }
{
    match edits.first() {
        Some(edit) => push_all(out, edit.new.as_slice()),
        None => Ok(()),
    }
}

/// Puts bytes after those of the text so far.
pub fn push_all(out: &mut Vec<u8>, bytes: &[u8]) -> Result<(), AllocError>
    ensures ok { OnOk result (out.new.items ≡ out.old.items ++ bytes.now) }
{
    out.extend_from_slice(bytes)?;
    Ok(())
}
