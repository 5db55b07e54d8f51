//! What holds of files of gates, and of many appends. No crate calls the other two.

ghost use Rattle.std.specs.Prelude.{◌≡◌, ◌+◌, ◌≤◌, ◌<◌, ◌++◌, [], ◌∷◌, List, ℕ};
ghost use Rattle.disk_model.specs.Moments.{LeavesOnly};
ghost use Rattle.gate_file.specs.Chain.{Spells, IsNoRun, IsCutAt, IsBeforeOrAfter, ends_at};
ghost use Rattle.gate_file.specs.Gate.{Keeps};
ghost use Rattle.gate_file.specs.Run.{bodies_after};

use disk_model::Disk;

/// A file stands for one thing: no run, or one list of bodies, or an entry that is cut short at one
/// offset.
pub fn a_file_stands_for_one_thing()
    ensures bodies { (file : List ℕ) (bodies others : List (List ℕ)) → Spells bodies file → Spells others file
        → bodies ≡ others }
    ensures no_run { (file : List ℕ) (bodies : List (List ℕ)) → IsNoRun file → Spells bodies file → bodies ≡ [] }
    ensures cut { (file : List ℕ) (at other : ℕ) → IsCutAt at file → IsCutAt other file → at ≡ other }
    ensures never_cut { (file : List ℕ) (bodies : List (List ℕ)) (at : ℕ) → Spells bodies file → IsCutAt at file → ⊥ }
    ensures no_run_uncut { (file : List ℕ) (at : ℕ) → IsNoRun file → IsCutAt at file → ⊥ }
{}

/// Over any number of appends that answered Ok, and one more that may be under way or have failed:
/// a stop at any moment from the j-th acknowledgement on leaves a file that spells the bodies of
/// the first m appends, with m at least j.
pub fn appends_leave_prefixes<D: Disk>()
    ensures { (disk : ℕ → D) (end : ℕ → ℕ) (body : ℕ → List ℕ) (first : List (List ℕ)) (n : ℕ)
        → Keeps first (D.state (disk 0)) (end 0)
        → ((k : ℕ) → k < n → (bodies : List (List ℕ)) → Keeps bodies (D.state (disk k)) (end k)
        → Keeps (bodies ++ body k ∷ []) (D.state (disk (k + 1))) (end (k + 1)))
        → ((k : ℕ) → k ≤ n → (bodies : List (List ℕ)) → Keeps bodies (D.state (disk k)) (end k)
        → LeavesOnly (IsBeforeOrAfter bodies (body k ∷ [])) (D.state (disk k)) (D.state (disk (k + 1))))
        → (j : ℕ) → j ≤ n → (c : List ℕ) → (D.state (disk (n + 1))).image_since (D.state (disk j)).clock c
        → (m : ℕ) × (j ≤ m) × (m ≤ n + 1) × Spells (bodies_after first body m) c }
{}

/// A file of gates ends where its bodies put it.
pub fn a_file_ends_behind_its_bodies<D: Disk>()
    ensures { (disk : D) (bodies : List (List ℕ)) (end : ℕ) → Keeps bodies (D.state disk) end → end ≡ ends_at bodies }
{}
