//! The pair of a run, from the texts in its header, which are judged anew by nc_verify.
//! For rebuilding.rt of this crate.
ghost use Rattle.std.specs.Prelude.{List, ℕ, IfOk, IfErr};
ghost use Rattle.run_records.specs.Entries.{Entry};
ghost use Rattle.run_records.specs.Headers.{IsShort};
ghost use Rattle.nc_restart.specs.Pair.{texts_of, IsPairOf};
ghost use Rattle.nc_restart.specs.Reading.{RefusesReading};

use crate::RestartFault;
use nc_number::Failing;
use nc_verify::{Verified, verdict};
use run_records::{BadRecord, Header};
use std::alloc::Global;

/// Where the body of the header begins in a journal: after its gate and its length (`refused` of
/// specs/Meaning.antt has the same number).
const HEADER_OFFSET: u64 = 5;

/// The pair that the texts of the header are, which are judged anew. Texts that are refused are
/// `RefusedTapes` at the offset of the header.
pub(crate) fn pair_of(alloc: Global, header: &Header) -> Result<Verified, RestartFault>
    requires { IsShort header.now }
    ensures accepted { IfOk result (IsPairOf (texts_of header.now)) }
    ensures refused { IfErr result (λ fault. (entries : List Entry) (begins : List ℕ)
        → RefusesReading header.now entries begins fault) }
{
    let left = header.left.as_slice();
    let right = header.right.as_slice();
    match verdict(alloc, left, right, header.settings.as_slice()) {
        Ok(pair) => Ok(pair),
        Err(Failing::Fault(_)) => Err(RestartFault::BadRecord {
            offset: HEADER_OFFSET,
            cause: BadRecord::RefusedTapes,
        }),
        Err(Failing::NoMemory) => Err(RestartFault::NoMemory),
    }
}
