//! A shelf in memory, for tests. What clauses see of it: specs/Kept and Plan, which no other crate
//! cites.
ghost use Rattle.std.specs.Prelude.{◌≡◌, ◌≢◌, ℕ, ◌<◌, ◌≤◌, List, [], ◌∷◌, ◌++◌, length, Some, None, Err, OnOk, OnErr, IfOk, IsSomeAnd, IsErrOf, MatchOption};
ghost use Rattle.nc_outside.specs.Files.{file_named};
ghost use Rattle.nc_outside.specs.Kept.{files_of, shelf_of};
ghost use Rattle.nc_outside.specs.Plan.{FailsAsPlanned, plan_after_call, fresh_plan};

use crate::asked::Asked;
use crate::plan::Plan;
use crate::{FetchFault, Shelf};
use nc_number::NoMemory;
use std::alloc::Global;
use std::marker::Model;

/// Files in memory, and the numbers of the calls that are to fail. It tells what it was asked for,
/// in clauses alone.
#[derive(Drop)]
pub struct MemoryShelf {
    /// The files, each with its name; of one name the first counts.
    files: Vec<(String, Vec<u8>)>,
    /// The names that it was asked for.
    asked: Asked,
    /// Which calls are to fail.
    plan: Plan,
}

impl Model for MemoryShelf {
    ghost use Rattle.nc_outside.specs.Kept.{KeptShelf, files_of};

    ghost Value = { KeptShelf };

    ghost view = { λ s. record { files = files_of s.files.items; asked = s.asked.names; plan = s.plan } };
}

impl MemoryShelf {
    /// A shelf with these files, of which the `failing` calls of `fetch` are to fail, counted from
    /// 1.
    pub fn new(
        alloc: Global,
        files: Vec<(String, Vec<u8>)>,
        failing: &[u64],
    ) -> Result<Self, NoMemory>
        ensures { IfOk result (λ shelf. shelf ≡ record {
          files = files_of files.items;
          asked = [];
          plan = fresh_plan failing.now;
        }) }
    {
        let plan = Plan::new(alloc, failing)?;
        let asked = Asked::none();
        Ok(MemoryShelf { files, asked, plan })
    }
}

/// The bytes of the first file of that name, or none if there is none.
fn find<'a>(files: &'a [(String, Vec<u8>)], name: &str) -> Option<&'a [u8]>
    ensures { MatchOption result (file_named name.now (files_of files.now) ≡ None)
        (λ bytes. file_named name.now (files_of files.now) ≡ Some bytes.now) }
{
    for (held, bytes) in files {
        if name == held.as_str() {
            return Some(bytes.as_slice());
        }
    }
    None
}

/// Appends the bytes of the file of that name, if they are few enough.
fn read(
    files: &[(String, Vec<u8>)],
    name: &str,
    into: &mut Vec<u8>,
    max: usize,
) -> Result<(), FetchFault>
    ensures ok { OnOk result ((bytes : List ℕ) × (file_named name.now (files_of files.now) ≡ Some bytes)
        × (length bytes ≤ max) × (into.new.items ≡ into.old.items ++ bytes)) }
    ensures absent { IsErrOf result FetchFault.Absent → file_named name.now (files_of files.now) ≡ None }
    ensures too_long { IsErrOf result FetchFault.TooLong
        → IsSomeAnd (file_named name.now (files_of files.now)) (λ bytes. max < length bytes) }
    ensures never { result ≢ Err FetchFault.Failed }
    ensures err { OnErr result (into.new.items ≡ into.old.items) }
{
    let Some(bytes) = find(files, name) else {
        return Err(FetchFault::Absent);
    };
    if bytes.len() > max {
        return Err(FetchFault::TooLong);
    }
    into.extend_from_slice(bytes)?;
    Ok(())
}

impl Shelf for MemoryShelf {
    ghost state = { shelf_of };

    /// How many of the planned faults have come.
    fn faults(&self) -> u64 {
        self.plan.faults()
    }

    /// Appends the bytes of the file of that name. It fails as planned; else `Absent` if there is
    /// no such file, `TooLong` if it has more than `max` bytes, `NoMemory` if there is no memory
    /// for its bytes.
    fn fetch(&mut self, name: &str, into: &mut Vec<u8>, max: usize) -> Result<(), FetchFault>
        ensures plan { FailsAsPlanned self.old.plan self.new.plan (IsErrOf result FetchFault.Failed) }
        ensures new { self.new ≡ record self.old {
          asked = self.old.asked ++ name.now ∷ [];
          plan = plan_after_call self.old.plan;
        } }
        ensures ok { OnOk result ((bytes : List ℕ) × (file_named name.now self.old.files ≡ Some bytes)
            × (length bytes ≤ max) × (into.new.items ≡ into.old.items ++ bytes)) }
        ensures absent { IsErrOf result FetchFault.Absent → file_named name.now self.old.files ≡ None }
        ensures too_long { IsErrOf result FetchFault.TooLong
            → IsSomeAnd (file_named name.now self.old.files) (λ bytes. max < length bytes) }
        ensures err { OnErr result (into.new.items ≡ into.old.items) }
    {
        self.asked.note(name.as_bytes());
        if self.plan.call() {
            return Err(FetchFault::Failed);
        }
        read(&self.files, name, into, max)
    }
}
