//! The three texts of a run as a header, and the accepted pair that they are.
//! run.rt and step_rows.rt use it.
ghost use Rattle.std.specs.Prelude.{IfOk};
ghost use Rattle.run_records.specs.Headers.{IsShort};
ghost use Rattle.run_table.specs.Kept.{IsVerdictOf};

use nc_number::Failing;
use nc_verify::{Verified, verdict};
use run_records::{ByteList, Header, Version};
use std::alloc::{AllocError, Global};
use std::test::Fail;

/// A text with each `~` as the end of a line.
fn lines_of(alloc: Global, text: &str) -> Result<Vec<u8>, AllocError> {
    text.bytes()
        .map(|byte| if byte == b'~' { b'\n' } else { byte })
        .collect(alloc)
}

/// Texts in which `~` stands for the end of a line, as a header.
fn header_of_any(
    alloc: Global,
    version: Version,
    left: &str,
    right: &str,
    settings: &str,
) -> Result<Header, AllocError> {
    Ok(Header {
        version,
        settings: ByteList::of(lines_of(alloc, settings)?),
        left: ByteList::of(lines_of(alloc, left)?),
        right: ByteList::of(lines_of(alloc, right)?),
    })
}

/// A header of texts in which `~` stands for the end of a line; each has fewer than ten thousand
/// bytes.
pub(crate) fn header_of(
    alloc: Global,
    version: Version,
    left: &str,
    right: &str,
    settings: &str,
) -> Result<Header, Fail>
    ensures { IfOk result IsShort }
{
    let header = header_of_any(alloc, version, left, right, settings)?;
    if header.settings.as_slice().len() < 10_000
        && header.left.as_slice().len() < 10_000
        && header.right.as_slice().len() < 10_000
    {
        Ok(header)
    } else {
        Err(Fail::new("texts of fewer than ten thousand bytes"))
    }
}

/// The pair of the header's texts, which has to be accepted.
pub(crate) fn pair_of(alloc: Global, header: &Header) -> Result<Verified, Fail>
    requires { IsShort header.now }
    ensures { IfOk result (IsVerdictOf header.now) }
{
    let left = header.left.as_slice();
    let right = header.right.as_slice();
    match verdict(alloc, left, right, header.settings.as_slice()) {
        Ok(pair) => Ok(pair),
        Err(Failing::Fault(refusal)) => Err(Fail::new(format_args!("{refusal}"))),
        Err(Failing::NoMemory) => Err(Fail::new("out of memory")),
    }
}
