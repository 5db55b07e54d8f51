//! A file of bodies, each after a gate: it is begun, opened and appended to. The bytes are in
//! specs/Chain.antt. What a body says is not known here.

ghost use Rattle.std.specs.Prelude.{◌≡◌, ◌*◌, ◌+◌, ◌^◌, ◌≤◌, ◌<◌, ◌++◌, [], ◌∷◌, List, ℕ, length, true, IsTrue, OnOk, IfOk, is_ok, vec_capacity, Bool};
ghost use Rattle.disk_model.specs.Device.{HasCause};
ghost use Rattle.disk_model.specs.Moments.{LeavesOnly, Uses};
ghost use Rattle.gate_file.specs.declared.gate.TheConstants.{BATCH_ROOM, LONGEST_BODY};
ghost use Rattle.gate_file.specs.Chain.{IsBeforeOrAfter, IsStaged, ends_at};
ghost use Rattle.gate_file.specs.Creation.{Begins, without_disk};
ghost use Rattle.gate_file.specs.Gate.{Gate, Keeps, disk_of, disk_opened};
ghost use Rattle.gate_file.specs.Opening.{Finds, found_with};

use crate::body_list::put_entry;
use crate::create::begin;
use crate::open::{Contents, FRAME, read_all};
use crate::{BodyList, DiskFault, GateFault};
use disk_model::{Disk, Failed};
use std::alloc::Global;
use std::marker::Model;

/// The most bytes of a body that `append` takes: a count of one byte, and 64 records of 131 bytes,
/// which are `MOST_PENDING` of nc_number and `LONGEST_RECORD` of run_records.
pub const LONGEST_BODY: usize = 8_385;

/// The room of the longest body that `append` takes: its four bytes of length, the body, and the
/// gate after it.
pub(crate) const BATCH_ROOM: usize = LONGEST_BODY + 5;

/// A file of bodies behind gates, which may be written as long as it is live.
#[derive(Drop)]
pub struct GateFile<D: Disk> {
    /// The disk with the file.
    disk: D,
    /// The offset of the shut gate after the last body.
    end: u64,
    /// Whether the file may be written: no call of `append` has failed.
    live: bool,
    /// Room for the entry of one batch, so that `append` takes no memory.
    room: Vec<u8>,
}

impl<D: Disk> Model for GateFile<D> {
    ghost use Rattle.gate_file.specs.Gate.{Gate};

    ghost Value = { Gate D };

    ghost use Rattle.std.specs.Prelude.{◌≤◌, ◌<◌, ◌^◌, vec_capacity};
    ghost use Rattle.gate_file.specs.declared.gate.TheConstants.{BATCH_ROOM};

    ghost view = { λ f. record { disk = f.disk; live = f.live; end = f.end } };

    ghost invariant = { λ f. (f.end < 2 ^ 62) × (BATCH_ROOM ≤ vec_capacity f.room) };
}

impl<D: Disk> GateFile<D> {
    /// Begins a file on the disk, with this first body. It begins with a sync, and writes over no
    /// run: if the first gate is open and the file has more than one byte nothing is written,
    /// and the answer is `RunThere`, or `DiskFault` if the disk failed before that was seen. An
    /// error gives the disk back, and unless it is `DiskFault` nothing was written.
    pub fn create(alloc: Global, disk: D, body: &[u8]) -> Result<GateFile<D>, (D, GateFault)>
        requires { length body.now < 2 ^ 32 }
        ensures begun { Begins (body.now ∷ []) (D.state disk) (D.state (disk_of result)) (without_disk result) }
        ensures live { IfOk result (λ file. IsTrue file.live) }
        ensures end { IfOk result (λ file. file.end ≡ 5 + length body.now) }
    {
        let mut disk = disk;
        match begin_with(alloc, &mut disk, body) {
            Ok(room) => Ok(GateFile {
                disk,
                end: FRAME + body.len() as u64,
                live: true,
                room,
            }),
            Err(fault) => Err((disk, fault)),
        }
    }

    /// Begins a file on the disk, with all these bodies at once: a crash at any moment of the call
    /// leaves what was there before, or no run, or all of them. It writes them after a shut first
    /// gate, each later gate open, and then opens the first. It refuses, and writes over no run, as
    /// `create` does.
    pub fn create_filled(
        alloc: Global,
        disk: D,
        bodies: &BodyList,
    ) -> Result<GateFile<D>, (D, GateFault)>
        requires { 0 < length bodies.now }
        ensures begun { Begins bodies.now (D.state disk) (D.state (disk_of result)) (without_disk result) }
        ensures live { IfOk result (λ file. IsTrue file.live) }
        ensures end { IfOk result (λ file. file.end ≡ ends_at bodies.now) }
    {
        let mut disk = disk;
        match fill_with(alloc, &mut disk, bodies) {
            Ok(room) => Ok(GateFile {
                disk,
                end: bodies.end(),
                live: true,
                room,
            }),
            Err(fault) => Err((disk, fault)),
        }
    }

    /// Opens the file on the disk, and gives its bodies. It begins with a sync, and writes nothing.
    /// `NoRun` comes if the file has at most one byte or its first gate is shut, and `Cut` with
    /// the offset of the first open gate whose entry, with the gate after it, does not end inside
    /// the file. An error gives the disk back.
    pub fn open_file(alloc: Global, disk: D) -> Result<(GateFile<D>, BodyList), (D, GateFault)>
        ensures finds { Finds (D.state disk) (D.state (disk_opened result)) (found_with result) }
        ensures live { IfOk result (λ found. IsTrue found.0.live) }
    {
        let mut disk = disk;
        match read_all(alloc, &mut disk) {
            Ok(Contents { end, bodies, room }) => {
                let file = GateFile {
                    disk,
                    end,
                    live: true,
                    room,
                };
                Ok((file, bodies))
            }
            Err(fault) => Err((disk, fault)),
        }
    }

    /// Writes one body more. It takes no memory. After an Ok the body is on the disk; after a fault
    /// the file is no longer live, and has to be opened again.
    pub fn append(&mut self, body: &[u8]) -> Result<(), DiskFault>
        requires live { IsTrue self.old.live }
        requires short { length body.now ≤ LONGEST_BODY }
        // After an Ok the file has the body after those that it had, whichever those were.
        ensures acknowledged { OnOk result ((bodies : List (List ℕ)) → Keeps bodies (D.state self.old.disk) self.old.end
            → Keeps (bodies ++ body.now ∷ []) (D.state self.new.disk) self.new.end) }
        // A crash at any moment of the call leaves the bodies that it had, or those and the body.
        ensures any_moment { (bodies : List (List ℕ)) → Keeps bodies (D.state self.old.disk) self.old.end
            → LeavesOnly (IsBeforeOrAfter bodies (body.now ∷ [])) (D.state self.old.disk) (D.state self.new.disk) }
        ensures moved { OnOk result (self.new.end ≡ self.old.end + 5 + length body.now) }
        ensures live { self.new.live ≡ is_ok result }
        ensures cause { HasCause (D.state self.old.disk) (D.state self.new.disk) result }
        ensures uses { Uses 4 (self.old.end + length body.now + 6) (D.state self.old.disk) (D.state self.new.disk) }
    {
        stage(&mut self.room, body);
        match add_staged(&mut self.disk, self.end, &self.room) {
            Ok(()) => {
                self.end += FRAME + body.len() as u64;
                Ok(())
            }
            Err(Failed) => {
                self.live = false;
                Err(DiskFault)
            }
        }
    }

    /// Whether the file may be written.
    pub fn is_live(&self) -> bool
        ensures { result ≡ self.now.live }
    {
        self.live
    }

    /// Gives the disk back.
    pub fn into_disk(self) -> D
        ensures { result ≡ self.disk }
    {
        let GateFile {
            disk,
            end: _,
            live: _,
            room: _,
        } = self;
        disk
    }
}

/// Begins the file with this body, and gives the room of one whole batch.
fn begin_with<D: Disk>(alloc: Global, disk: &mut D, body: &[u8]) -> Result<Vec<u8>, GateFault>
    requires { length body.now < 2 ^ 32 }
    ensures room { IfOk result (λ room. BATCH_ROOM ≤ vec_capacity room) }
    ensures begun { Begins (body.now ∷ []) (D.state disk.old) (D.state disk.new) result }
{
    let room = Vec::with_capacity(alloc, BATCH_ROOM)?;
    let mut staged = Vec::with_capacity(alloc, body.len() + FRAME as usize)?;
    stage(&mut staged, body);
    match begin(disk, &staged) {
        Ok(()) => Ok(room),
        Err(fault) => Err(fault),
    }
}

/// Begins the file with all these bodies, and gives the room of one whole batch.
fn fill_with<D: Disk>(alloc: Global, disk: &mut D, bodies: &BodyList) -> Result<Vec<u8>, GateFault>
    requires { 0 < length bodies.now }
    ensures room { IfOk result (λ room. BATCH_ROOM ≤ vec_capacity room) }
    ensures small { OnOk result (ends_at bodies.now < 2 ^ 62) }
    ensures begun { Begins bodies.now (D.state disk.old) (D.state disk.new) result }
{
    let room = Vec::with_capacity(alloc, BATCH_ROOM)?;
    let staged = bodies.staged(alloc)?;
    match begin(disk, &staged) {
        Ok(()) => Ok(room),
        Err(fault) => Err(fault),
    }
}

/// Puts a body's entry into the room, and a shut gate after it.
fn stage(room: &mut Vec<u8>, body: &[u8])
    requires fits { length body.now + 5 ≤ vec_capacity room.old }
    requires short { length body.now < 2 ^ 32 }
    ensures staged { IsStaged (body.now ∷ []) room.new.items }
    ensures size { length room.new.items ≡ 5 + length body.now }
    ensures capacity { vec_capacity room.old ≤ vec_capacity room.new }
{
    room.clear();
    put_entry(room, body);
    room.push(0).unwrap();
}

/// Writes staged entries, which count once the gate before them is open, after the shut gate, and
/// then opens the gate: each of the two is on the disk before the next begins.
pub(crate) fn add_staged<D: Disk>(disk: &mut D, end: u64, staged: &[u8]) -> Result<(), Failed>
    requires { end < 2 ^ 62 }
    ensures small { OnOk result (end + 1 + length staged.now < 2 ^ 62) }
    ensures cause { HasCause (D.state disk.old) (D.state disk.new) result }
    ensures uses { Uses 4 (end + 1 + length staged.now) (D.state disk.old) (D.state disk.new) }
    ensures acknowledged { OnOk result ((bodies more : List (List ℕ)) → IsStaged more staged.now
        → Keeps bodies (D.state disk.old) end
        → Keeps (bodies ++ more) (D.state disk.new) (end + length staged.now)) }
    ensures any_moment { (bodies more : List (List ℕ)) → IsStaged more staged.now
        → Keeps bodies (D.state disk.old) end
        → LeavesOnly (IsBeforeOrAfter bodies more) (D.state disk.old) (D.state disk.new) }
{
    disk.write_at(end + 1, staged)?;
    disk.sync()?;
    disk.write_at(end, &[1])?;
    disk.sync()?;
    Ok(())
}
