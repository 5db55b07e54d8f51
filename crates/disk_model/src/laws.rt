//! What a crash between two syncs may leave, told write by write, and what a new disk in memory
//! allows. The images themselves are in specs/Image.antt. No call here does anything: each contract
//! is a fact for readers.

ghost use Rattle.std.specs.Prelude.{◌≡◌, ◌↔◌, ◌-◌, ◌^◌, ◌≤◌, ◌<◌, ◌++◌, [], ◌∷◌, List, ℕ};
ghost use Rattle.disk_model.specs.declared.stretch.Stretch.{Stretch};
ghost use Rattle.disk_model.specs.Device.{Torn};
ghost use Rattle.disk_model.specs.Image.{IsImage};
ghost use Rattle.disk_model.specs.Memory.{fresh_disk, memory_state};
ghost use Rattle.disk_model.specs.Fuse.{fuse_state};

/// The images since a sync are what torn writes leave, one after another: with none, what was
/// synced; with one more, an image from before it in which any bytes stand in the range of the
/// write and behind the old end.
pub fn images_are_torn_writes()
    ensures none { (synced c : List ℕ) → IsImage synced [] c ↔ (c ≡ synced) }
    ensures more { (synced : List ℕ) (written : List Stretch) (s : Stretch) (c : List ℕ) →
        IsImage synced (written ++ s ∷ []) c ↔ ((b : List ℕ) × IsImage synced written b × Torn s.at s.len b c) }
{}

/// A new disk in memory on which no call is to fail allows as many calls as its record has room
/// for, and writes up to its room; a fuse round it as many of them as it passes on.
pub fn a_new_disk_allows_its_room()
    ensures memory { (bytes : List ℕ) (room calls used end : ℕ) → used ≤ calls → used < 2 ^ 64 - 1 → end ≤ room
        → (memory_state (fresh_disk bytes room calls [])).allows used end }
    ensures fuse { (bytes : List ℕ) (room calls passes used end : ℕ) → used ≤ calls → used < 2 ^ 64 - 1
        → end ≤ room → used ≤ passes
        → (fuse_state (record { inner = fresh_disk bytes room calls []; passes = passes; burnt = 0; reach = 0 })).allows
        used end }
{}
