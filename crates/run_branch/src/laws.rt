//! What holds of branches, whatever made them: two laws for readers, which no crate calls; neither
//! call does anything.
ghost use Rattle.std.specs.Prelude.{◌≡◌, ◌↔◌, ◌<◌, ℕ, List, Some, None, Result};
ghost use Rattle.disk_model.specs.Device.{Reads};
ghost use Rattle.run_records.specs.Entries.{Entry};
ghost use Rattle.run_records.specs.declared.header.Header.{Header};
ghost use Rattle.run_journal.specs.declared.fault.JournalFault.{JournalFault};
ghost use Rattle.run_journal.specs.Opening.{Found, FindsRun};
ghost use Rattle.run_branch.specs.Branches.{IsBranch};
ghost use Rattle.run_branch.specs.Meetings.{meetings, branch_point, IsBranchPoint};
ghost use Rattle.run_branch.specs.Openings.{OpensAsBranch};

use disk_model::Disk;
use run_journal::a_journal_stands_for_one_thing;

/// A branch reaches as far as the shortest prefix that has n meetings, and there is none exactly
/// where all records together have fewer.
pub fn a_branch_point_is_the_least()
    ensures least { (n : ℕ) (entries : List Entry) (k : ℕ)
        → (branch_point n entries ≡ Some k) ↔ IsBranchPoint n entries k }
    ensures none { (n : ℕ) (entries : List Entry) → (branch_point n entries ≡ None) ↔ (meetings entries < n) }
{}

/// A disk that stands for a branch opens as exactly that: its header and its records are found,
/// unless the disk fails or there is no memory.
pub fn a_branch_opens_as_its_records<E: Disk>()
    ensures { (before after : E) (header : Header) (entries : List Entry) (n : ℕ) (bytes : List ℕ)
        (result : Result Found JournalFault)
        → Reads (E.state before) bytes → IsBranch header entries n bytes
        → FindsRun (E.state before) (E.state after) result → OpensAsBranch header entries n result }
{
    a_journal_stands_for_one_thing();
}
