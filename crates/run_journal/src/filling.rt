//! The bodies of a journal that is written at once. A journal that grows is in journal.rt.

ghost use Rattle.std.specs.Prelude.{◌≡◌, ◌+◌, ◌-◌, ◌≤◌, ◌<◌, ℕ, List, length, take, drop, IfOk};
ghost use Rattle.nc_number.specs.declared.limits.TheConstants.{MOST_PENDING};
ghost use Rattle.run_records.specs.Headers.{header_bytes, IsShort};
ghost use Rattle.run_records.specs.declared.version.Version.TheVariants.{Two};
ghost use Rattle.run_journal.specs.Filled.{newest, IsFilled};
ghost use Rattle.run_journal.specs.Stands.{Pends};

use crate::batch::Batch;
use gate_file::BodyList;
use nc_number::{MOST_PENDING, NoMemory};
use run_records::{EntryList, Header, Version, put_header};
use std::alloc::Global;

/// Where the low byte of the version stands in a header, as run_records spells it (`header_mark` of
/// its specs/Headers.antt).
const VERSION_AT: usize = 5;

/// The bodies of a journal of version 2 that has the texts of this header, whatever version that is
/// of, and the first `upto` records, in batches of 64, of which the last may be shorter.
pub fn journal_bodies(
    alloc: Global,
    header: &Header,
    entries: &EntryList,
    upto: usize,
) -> Result<BodyList, NoMemory>
    requires short { IsShort header.now }
    requires within { upto ≤ length entries.now.items }
    ensures { IfOk result (λ bodies. IsFilled (newest header.now) (take upto entries.now.items) bodies) }
{
    let mut bodies = BodyList::empty(alloc);
    bodies.push(&newest_header(alloc, header)?)?;
    let mut batch = Batch::empty(alloc)?;
    let mut at = 0;
    while at < upto {
        let end = at + MOST_PENDING.min(upto - at);
        gather(&mut batch, entries, at, end);
        bodies.push(batch.as_slice())?;
        at = end;
    }
    Ok(bodies)
}

/// The bytes of the header with the same texts, of a journal of version 2.
fn newest_header(alloc: Global, header: &Header) -> Result<Vec<u8>, NoMemory>
    requires { IsShort header.now }
    ensures { IfOk result (λ bytes. bytes.items ≡ header_bytes (newest header.now)) }
{
    let mut bytes = put_header(alloc, header)?;
    bytes[VERSION_AT] = Version::Two.number();
    Ok(bytes)
}

/// Fills a batch with the records from one index up to another.
fn gather(batch: &mut Batch, entries: &EntryList, start: usize, end: usize)
    requires order { (start ≤ end) × (end ≤ length entries.now.items) }
    requires few { end ≤ start + MOST_PENDING }
    ensures { Pends Two (take (end - start) (drop start entries.now.items)) batch.new }
{
    batch.clear();
    for index in start..end {
        batch.put(&entries.get(index));
    }
}
