//! How a file of gates is read, a window of 64 KB at a time, up to the first shut gate. It writes
//! nothing.
//! For body_list.rt and gate.rt of this crate.

ghost use Rattle.std.specs.Prelude.{◌≡◌, ◌+◌, ◌-◌, ◌*◌, ◌^◌, ◌≤◌, ◌<◌, ◌++◌, [], ◌∷◌, List, ℕ, length, take, drop, min, OnOk, OnErr, IfOk, IfErr, IfSome, vec_capacity};
ghost use Rattle.disk_model.specs.Device.{Reads, IsSettled};
ghost use Rattle.nc_number.specs.Faults.{Rose};
ghost use Rattle.disk_model.specs.Moments.{Peeks};
ghost use Rattle.gate_file.specs.declared.gate.TheConstants.{BATCH_ROOM};
ghost use Rattle.gate_file.specs.Chain.{Opens, IsShut, IsEntry};
ghost use Rattle.gate_file.specs.First.{IsHead};
ghost use Rattle.gate_file.specs.Gate.{IsCalm};
ghost use Rattle.gate_file.specs.Opening.{IsBefore, IsSeen, ReadsOn, RefusesOpening, RefusesReading, RefusesEntry, Finds, found_in};

use crate::gate::BATCH_ROOM;
use crate::{BodyList, GateFault};
use disk_model::Disk;
use std::alloc::{AllocError, Global};

/// How many bytes stand beside a body: its length before it, and the gate after it.
pub(crate) const FRAME: u64 = 5;

/// How many bytes of a file are read at once.
const WINDOW: usize = 65_536;

/// What stands at a gate.
#[derive(Clone, Copy, Debug, PartialEq, Eq)]
pub(crate) enum Head {
    // The gate is shut.
    Shut,
    // The gate is open, and a body of so many bytes is to follow.
    Open(u32),
    // The bytes end before the length does.
    Cut,
}

/// What stands after an open gate, and the room of one whole batch.
pub(crate) struct Contents {
    /// The offset of the first shut gate.
    pub(crate) end: u64,
    /// The bodies before it.
    pub(crate) bodies: BodyList,
    /// Room for the entry of one batch.
    pub(crate) room: Vec<u8>,
}

/// All bodies up to the first shut gate, where that gate stands, and room for a batch. Errors:
/// `NoRun` if the first gate is shut or there is at most one byte, `Cut` if an entry does not end
/// inside the file, `DiskFault`, `NoMemory`.
pub(crate) fn read_all<D: Disk>(alloc: Global, disk: &mut D) -> Result<Contents, GateFault>
    ensures finds { Finds (D.state disk.old) (D.state disk.new) (found_in result) }
    ensures small { IfOk result (λ found. found.end < 2 ^ 62) }
    ensures room { IfOk result (λ found. BATCH_ROOM ≤ vec_capacity found.room) }
{
    let room = Vec::with_capacity(alloc, BATCH_ROOM)?;
    let mut window = empty_window(alloc)?;
    let len = start_reading(disk)?;
    let mut bodies = BodyList::empty(alloc);
    let end = read_bodies(alloc, disk, len, &mut window, &mut bodies)?;
    if end == 0 {
        return Err(GateFault::NoRun);
    }
    Ok(Contents { end, bodies, room })
}

/// Room for one read of the file: 64 KB of zeros.
fn empty_window(alloc: Global) -> Result<Vec<u8>, AllocError>
    ensures { IfOk result (λ window. 5 ≤ length window.items) }
{
    let window = vec![in alloc; 0u8; WINDOW]?;
    Ok(window)
}

/// The length of a file that may hold a run, with all of it on the disk. `NoRun` if it has at most
/// one byte.
fn start_reading<D: Disk>(disk: &mut D) -> Result<u64, GateFault>
    ensures size { IfOk result (λ len. (bytes : List ℕ) → Reads (D.state disk.old) bytes → len ≡ length bytes) }
    ensures small { IfOk result (λ len. (1 < len) × (len < 2 ^ 62)) }
    ensures settled { OnOk result (IsSettled (D.state disk.new)) }
    ensures refused { IfErr result (λ fault. RefusesOpening fault (D.state disk.old) (D.state disk.new)) }
    ensures calm { IsCalm (D.state disk.old) (D.state disk.new) result }
    ensures peeks { Peeks 2 (D.state disk.old) (D.state disk.new) }
{
    disk.sync()?;
    let len = disk.len()?;
    if len <= 1 {
        return Err(GateFault::NoRun);
    }
    Ok(len)
}

/// Reads bodies up to the first shut gate, and gives its offset.
fn read_bodies<D: Disk>(
    alloc: Global,
    disk: &mut D,
    len: u64,
    window: &mut [u8],
    bodies: &mut BodyList,
) -> Result<u64, GateFault>
    requires empty { bodies.old ≡ [] }
    requires size { (1 < len) × (len < 2 ^ 62) }
    requires window { 5 ≤ length window.old }
    ensures shut { IfOk result (λ at. (bytes : List ℕ) → IsBefore 0 len [] (D.state disk.old) bytes
        → ReadsOn at None bodies.new bytes) }
    ensures place { IfOk result (λ at. (at < len) × (bodies.new ≡ [] → at ≡ 0)) }
    ensures opens { (bytes : List ℕ) → IsBefore 0 len [] (D.state disk.old) bytes → (rest : List ℕ)
        × Opens bodies.new bytes rest }
    ensures refused { IfErr result (λ fault. RefusesReading 0 len [] fault (D.state disk.old) (D.state disk.new)) }
    ensures calm { IsCalm (D.state disk.old) (D.state disk.new) result }
    ensures peeks { Peeks (2 * length bodies.new + 2) (D.state disk.old) (D.state disk.new) }
{
    let mut at = 0;
    while let Some(next) = read_on(alloc, disk, at, len, window, bodies)? {
        at = next;
    }
    Ok(at)
}

/// Reads on from the gate at an offset: the entries that lie whole in a window, or one that is
/// longer. It answers where the next gate stands, or none if the gate at the offset is shut.
fn read_on<D: Disk>(
    alloc: Global,
    disk: &mut D,
    at: u64,
    len: u64,
    window: &mut [u8],
    bodies: &mut BodyList,
) -> Result<Option<u64>, GateFault>
    requires within { (at < len) × (1 < len) × (len < 2 ^ 62) }
    requires window { 5 ≤ length window.old }
    ensures reads { IfOk result (λ next. (bytes : List ℕ)
        → IsBefore at len bodies.old (D.state disk.old) bytes → ReadsOn at next bodies.new bytes) }
    ensures moved { IfOk result (λ found. IfSome found (λ next. (at < next) × (next < len)
        × (length bodies.old < length bodies.new))) }
    ensures opens { (bytes : List ℕ) → IsBefore at len bodies.old (D.state disk.old) bytes → (rest : List ℕ)
        × Opens bodies.new bytes rest }
    ensures grown { length bodies.old ≤ length bodies.new }
    ensures refused { IfErr result (λ fault. RefusesReading at len bodies.old fault
        (D.state disk.old) (D.state disk.new)) }
    ensures calm { IsCalm (D.state disk.old) (D.state disk.new) result }
    ensures peeks { Peeks 2 (D.state disk.old) (D.state disk.new) }
{
    let count = disk.read_at(at, window)?;
    let seen = front(window, count, len - at);
    let taken = bodies.take_entries(seen)?;
    if taken > 0 {
        return Ok(Some(at + taken as u64));
    }
    match read_entry(alloc, disk, at, len, seen)? {
        Some(body) => {
            let next = at + FRAME + body.len() as u64;
            bodies.push(&body)?;
            Ok(Some(next))
        }
        None => Ok(None),
    }
}

/// The first bytes of a window: as many as were read, and no more than are left of the file.
fn front(window: &[u8], count: usize, left: u64) -> &[u8]
    requires { count ≤ length window.now }
    ensures { result.now ≡ take (min count left) window.now }
{
    let count = if (count as u64) < left {
        count
    } else {
        left as usize
    };
    let (front, _) = window.split_at(count);
    front
}

/// The body that stands whole in these bytes after an open gate, and what stands after it: the
/// next gate at least.
pub(crate) fn entry_in(bytes: &[u8]) -> Option<(&[u8], &[u8])>
    ensures { IfSome result (λ found. IsEntry found.0.now bytes.now found.1.now × (0 < length found.1.now)) }
{
    let Head::Open(size) = head_of(bytes) else {
        return None;
    };
    let (_, rest) = bytes.split_at(FRAME as usize);
    if rest.len() <= size as usize {
        return None;
    }
    Some(rest.split_at(size as usize))
}

/// What the first bytes at a gate say.
fn head_of(bytes: &[u8]) -> Head
    ensures { IsHead result (take 5 bytes.now) }
{
    let (front, _) = bytes.split_at(bytes.len().min(5));
    head_in(front)
}

/// What five bytes at a gate say, or fewer if the file ends there.
fn head_in(bytes: &[u8]) -> Head
    requires { length bytes.now ≤ 5 }
    ensures { IsHead result bytes.now }
{
    match bytes {
        [0, ..] => Head::Shut,
        [_, a, b, c, d] => Head::Open(u32::from_be_bytes([*a, *b, *c, *d])),
        _ => Head::Cut,
    }
}

/// The body after the gate at an offset, whose first bytes were seen, or none if the gate is shut.
fn read_entry<D: Disk>(
    alloc: Global,
    disk: &mut D,
    at: u64,
    len: u64,
    seen: &[u8],
) -> Result<Option<Vec<u8>>, GateFault>
    requires within { (at < len) × (len < 2 ^ 62) }
    ensures shut { IfOk result (λ found. found ≡ None → (bytes : List ℕ)
        → IsSeen seen.now at len (D.state disk.old) bytes → IsShut (drop at bytes)) }
    ensures entry { IfOk result (λ found. IfSome found (λ body. (bytes : List ℕ)
        → IsSeen seen.now at len (D.state disk.old) bytes
        → IsEntry body.items (drop at bytes) (drop (at + 5 + length body.items) bytes))) }
    ensures fits { IfOk result (λ found. IfSome found (λ body. at + 5 + length body.items < len)) }
    ensures short { IfOk result (λ found. IfSome found (λ body. length body.items < 2 ^ 32)) }
    ensures refused { IfErr result (λ fault. RefusesEntry seen.now at len fault (D.state disk.old) (D.state disk.new)) }
    ensures calm { IsCalm (D.state disk.old) (D.state disk.new) result }
    ensures peeks { Peeks 1 (D.state disk.old) (D.state disk.new) }
{
    let size = match head_of(seen) {
        Head::Shut => return Ok(None),
        Head::Cut => return Err(GateFault::Cut(at)),
        Head::Open(size) => size,
    };
    if len - at <= FRAME + size as u64 {
        return Err(GateFault::Cut(at));
    }
    match read_body(alloc, disk, at, size as usize) {
        Ok(body) => Ok(Some(body)),
        Err(fault) => Err(fault),
    }
}

/// The body of this size after the gate at this offset. `Cut` with the offset of the gate if the
/// file ends before the body does.
fn read_body<D: Disk>(
    alloc: Global,
    disk: &mut D,
    at: u64,
    size: usize,
) -> Result<Vec<u8>, GateFault>
    requires { at + 5 < 2 ^ 64 }
    ensures size { IfOk result (λ body. length body.items ≡ size) }
    ensures body { IfOk result (λ body. (bytes : List ℕ) → Reads (D.state disk.old) bytes
        → body.items ≡ take size (drop (at + 5) bytes)) }
    ensures cut { IfErr result (λ fault. (o : ℕ) → fault ≡ GateFault.Cut o → (bytes : List ℕ)
        → Reads (D.state disk.old) bytes → length bytes - (at + 5) < size) }
    ensures disk_fault { IfErr result (λ fault. fault ≡ GateFault.DiskFault
        → Rose (D.state disk.old).faults (D.state disk.new).faults) }
    ensures never { IfErr result (λ fault. (fault ≡ GateFault.RunThere → ⊥) × (fault ≡ GateFault.NoRun → ⊥)) }
    ensures calm { IsCalm (D.state disk.old) (D.state disk.new) result }
    ensures peeks { Peeks 1 (D.state disk.old) (D.state disk.new) }
{
    let mut body = vec![in alloc; 0u8; size]?;
    let count = disk.read_at(at + FRAME, &mut body)?;
    if count < size {
        return Err(GateFault::Cut(at));
    }
    Ok(body)
}
