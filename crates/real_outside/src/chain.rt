//! How far the bytes of a journal count: up to its first shut gate. The format is that of gate_file
//! (specs/Chain.antt), and changes with it.
//! For journal_file.rt, renewal.rt, shown_file.rt and standing.rt of this crate.
ghost use Rattle.std.specs.Prelude.{◌≡◌, ◌<◌, ◌^◌, ℕ, IfOk};

use crate::folder::RawFile;
use crate::pieces::read_up_to;
use std::io;

/// A file must end before this byte: the bound that each disk keeps (disk_model, specs/Calls.antt).
pub(crate) const END: u64 = 1 << 62;

/// How many bytes of the chain go with a body: the gate before it and the four of its length.
pub(crate) const FRAME: usize = 5;

/// Where the gates of a journal end.
#[derive(Clone, Copy, Debug, PartialEq, Eq)]
pub(crate) struct LastGate {
    /// The place of the first gate that is shut, or at which the file is cut short.
    pub(crate) at: u64,
    /// Whether a shut gate stands there. What is after it counts for nothing.
    pub(crate) is_shut: bool,
}

/// What stands at a gate.
#[derive(Clone, Copy, Debug, PartialEq, Eq)]
pub(crate) enum Head {
    /// It is shut.
    Shut,
    /// It is open, and this is the place of the next.
    Open(u64),
    /// The file ends before the gate or what says the place of the next.
    Cut,
}

/// Where the gates of a journal end, or an error of the system. It goes over the gates from the
/// first on, reads each of them once, and goes no further than the first that is shut.
///
/// A command that writes a journal opens a gate only if what stands after it is whole and on the
/// medium, and never changes what stands before a gate that is shut. So this is how far the journal
/// counted at some moment, whatever is written meanwhile.
pub(crate) fn last_gate<F: RawFile>(file: &F) -> io::Result<LastGate>
    ensures { IfOk result (λ gate. gate.at < 2 ^ 62) }
{
    let mut at = 0;
    let mut head = head_at(file, at)?;
    while let Head::Open(next) = head {
        at = next;
        head = head_at(file, at)?;
    }
    let is_shut = head == Head::Shut;
    Ok(LastGate { at, is_shut })
}

/// What stands at the gate of this place.
pub(crate) fn head_at<F: RawFile>(file: &F, at: u64) -> io::Result<Head>
    requires { at < 2 ^ 62 }
    ensures { IfOk result (λ head. (next : ℕ) → head ≡ Head.Open next → (at < next) × (next < 2 ^ 62)) }
{
    let mut bytes = [0u8; FRAME];
    let count = read_up_to(file, at, &mut bytes)?;
    Ok(head_in(at, &bytes[..count]))
}

/// What the first bytes at a gate say, five of them, or fewer if the file ends.
fn head_in(at: u64, bytes: &[u8]) -> Head
    requires { at < 2 ^ 62 }
    ensures { (next : ℕ) → result ≡ Head.Open next → (at < next) × (next < 2 ^ 62) }
{
    match bytes {
        [0, ..] => Head::Shut,
        [_, a, b, c, d, ..] => {
            let next = at + FRAME as u64 + u64::from(u32::from_be_bytes([*a, *b, *c, *d]));
            if next < END {
                Head::Open(next)
            } else {
                Head::Cut
            }
        }
        _ => Head::Cut,
    }
}
