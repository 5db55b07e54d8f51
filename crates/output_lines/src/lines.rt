//! A text whose statements that print or write a file are comments.
ghost use Rattle.std.specs.Prelude.{◌≡◌, ◌++◌, OnOk, IfOk};
ghost use Rattle.output_lines.specs.Lines.{commented_rest, commented, without_outputs};

use crate::front::{front_len, is_output, statement_len};
use std::alloc::{AllocError, Global};

/// Puts what stands behind the front of a line: a statement that prints or writes a file as a comment,
/// and all else as it is.
fn push_rest(out: &mut Vec<u8>, rest: &[u8]) -> Result<(), AllocError>
    ensures { OnOk result (out.new.items ≡ out.old.items ++ commented_rest rest.now) }
{
    if !is_output(rest) {
        out.extend_from_slice(rest)?;
        return Ok(());
    }
    let (told, behind) = rest.split_at(statement_len(rest));
    out.push(b'(')?;
    out.extend_from_slice(told)?;
    out.push(b')')?;
    out.extend_from_slice(behind)?;
    Ok(())
}

/// Puts a line.
fn push_line(out: &mut Vec<u8>, line: &[u8]) -> Result<(), AllocError>
    ensures { OnOk result (out.new.items ≡ out.old.items ++ commented line.now) }
{
    let (front, rest) = line.split_at(front_len(line));
    out.extend_from_slice(front)?;
    push_rest(out, rest)
}

/// The text in which each statement that prints or writes a file stands in a comment: what a line has
/// before it (a skip sign, N) stays, and so do all other lines.
pub fn without_outputs(alloc: Global, text: &[u8]) -> Result<Vec<u8>, AllocError>
    ensures { IfOk result (λ bytes. bytes.items ≡ without_outputs text.now) }
{
    let mut out = Vec::new(alloc);
    let mut line = Vec::new(alloc);
    for byte in text {
        if *byte == b'\n' {
            push_line(&mut out, &line)?;
            out.push(b'\n')?;
            line = Vec::new(alloc);
            continue;
        }
        line.push(*byte)?;
    }
    push_line(&mut out, &line)?;
    Ok(out)
}
