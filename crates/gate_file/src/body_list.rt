//! A list of bodies, which takes no memory for each: all stand in one list of bytes, as in a file of
//! gates. Opening a file gives one, and a file may begin with one.

ghost use Rattle.std.specs.Prelude.{◌≡◌, ◌+◌, ◌*◌, ◌^◌, ◌<◌, ◌≤◌, ◌++◌, ◌==◌, [], ◌∷◌, List, ℕ, length, take, drop, get_or, IfOk, IfSome, IfNone, OnOk, OnErr, vec_capacity};
ghost use Rattle.gate_file.specs.Bodies.{bytes_between, bodies_from, AreEnds};
ghost use Rattle.gate_file.specs.Chain.{entry, Opens, IsStaged, ends_at};

use crate::open::{FRAME, entry_in};
use std::alloc::{AllocError, Global};
use std::marker::Model;

/// A list of bodies, each of fewer than 2^32 bytes, the first one first. All of them stand in one
/// list of bytes, as a file has them, so that none takes memory of its own.
#[derive(Drop)]
pub struct BodyList {
    // Each body's entry after its open gate, as a file has it.
    bytes: Vec<u8>,
    // Where each body ends and the gate of the next one stands.
    ends: Vec<usize>,
}

impl Model for BodyList {
    ghost use Rattle.std.specs.Prelude.{List, ℕ};
    ghost use Rattle.gate_file.specs.Bodies.{bodies_from, AreBodies};

    ghost Value = { List (List ℕ) };

    ghost view = { λ l. bodies_from 0 l.ends.items l.bytes.items };

    ghost invariant = { λ l. AreBodies l.ends.items l.bytes.items };
}

impl BodyList {
    /// A list of no bodies.
    pub fn empty(alloc: Global) -> BodyList
        ensures { result ≡ [] }
    {
        BodyList {
            bytes: Vec::new(alloc),
            ends: Vec::new(alloc),
        }
    }

    /// Makes room for so many bodies more, which have so many bytes together. An error leaves the
    /// list as it is.
    pub fn reserve(&mut self, bodies: usize, bytes: usize) -> Result<(), AllocError>
        ensures { self.new ≡ self.old }
    {
        let Some(frames) = bodies.checked_mul(FRAME as usize) else {
            return Err(AllocError);
        };
        let Some(room) = frames.checked_add(bytes) else {
            return Err(AllocError);
        };
        self.ends.reserve(bodies)?;
        self.bytes.reserve(room)
    }

    /// Puts one body more after those that are there. If there is no memory left the list stays as
    /// it is.
    pub fn push(&mut self, body: &[u8]) -> Result<(), AllocError>
        requires { length body.now < 2 ^ 32 }
        ensures ok { OnOk result (self.new ≡ self.old ++ body.now ∷ []) }
        ensures err { OnErr result (self.new ≡ self.old) }
    {
        self.ends.reserve(1)?;
        self.bytes.reserve(FRAME as usize + body.len())?;
        self.bytes.push_reserved(1);
        put_entry(&mut self.bytes, body);
        self.ends.push_reserved(self.bytes.len());
        Ok(())
    }

    /// How many bodies there are.
    pub fn len(&self) -> usize
        ensures { result ≡ length self.now }
    {
        self.ends.len()
    }

    /// Whether there is none.
    pub fn is_empty(&self) -> bool
        ensures { result ≡ (length self.now == 0) }
    {
        self.len() == 0
    }

    /// The body of this index, counted from 0.
    pub fn get(&self, index: usize) -> Option<&[u8]>
        ensures some { IfSome result (λ body. (index < length self.now) × (body.now ≡ get_or self.now index [])) }
        ensures none { IfNone result (length self.now ≤ index) }
    {
        if index < self.len() {
            Some(self.body(index))
        } else {
            None
        }
    }

    /// The body of an index below `len`: `for index in 0..bodies.len()` comes to each in its turn.
    pub fn body(&self, index: usize) -> &[u8]
        requires { index < length self.now }
        ensures { result.now ≡ get_or self.now index [] }
    {
        let end = self.ends[index];
        let gate = start_of(&self.ends, index);
        stretch(&self.bytes, gate + FRAME as usize, end)
    }

    /// Where a body of an index below `len` begins in the file, as an offset.
    pub fn offset(&self, index: usize) -> u64
        requires { index < length self.now }
        ensures place { result ≡ ends_at (take index self.now) + 5 }
        ensures fits { result + length (get_or self.now index []) < 2 ^ 63 }
    {
        (start_of(&self.ends, index) + FRAME as usize) as u64
    }

    /// Takes the entries that lie whole in these bytes, each with the gate after it, by one copy.
    /// Gives where the next gate is in these bytes; 0 if no entry lies whole in them.
    pub(crate) fn take_entries(&mut self, seen: &[u8]) -> Result<usize, AllocError>
        ensures reads { IfOk result (λ n. (file behind : List ℕ) → Opens self.old file (seen.now ++ behind)
            → Opens self.new file (drop n seen.now ++ behind)) }
        ensures moved { IfOk result (λ n. 0 < n → (n < length seen.now) × (length self.old < length self.new)) }
        ensures opens { (file behind : List ℕ) → Opens self.old file (seen.now ++ behind) → (rest : List ℕ)
            × Opens self.new file rest }
        ensures grown { length self.old ≤ length self.new }
    {
        let start = self.bytes.len();
        self.ends.reserve(seen.len() / FRAME as usize)?;
        self.bytes.extend_from_slice(seen)?;
        let taken = list_ends(seen, start, &mut self.ends);
        self.bytes.truncate(start + taken);
        Ok(taken)
    }

    /// Where the shut gate stands after these bodies in a file.
    pub(crate) fn end(&self) -> u64
        ensures { result ≡ ends_at self.now }
    {
        self.bytes.len() as u64
    }

    /// What is to be written after a shut first gate, so that a file has these bodies once that
    /// gate is open. An error is out of memory.
    pub(crate) fn staged(&self, alloc: Global) -> Result<Vec<u8>, AllocError>
        requires { 0 < length self.now }
        ensures staged { IfOk result (λ staged. IsStaged self.now staged.items) }
        ensures size { IfOk result (λ staged. length staged.items ≡ ends_at self.now) }
    {
        let (_, entries) = self.bytes.split_at(1);
        let mut staged = Vec::with_capacity(alloc, self.bytes.len())?;
        staged.extend_from_slice(entries)?;
        staged.push_reserved(0);
        Ok(staged)
    }
}

/// Adds a body with its length before it, four bytes, the high one first, after what is there.
pub(crate) fn put_entry(room: &mut Vec<u8>, body: &[u8])
    requires fits { length room.old.items + (length body.now + 4) ≤ vec_capacity room.old }
    requires short { length body.now < 2 ^ 32 }
    ensures items { room.new.items ≡ room.old.items ++ entry body.now }
    ensures capacity { vec_capacity room.old ≤ vec_capacity room.new }
{
    let size = body.len() as u32;
    room.extend_from_slice(&size.to_be_bytes()).unwrap();
    room.extend_from_slice(body).unwrap();
}

/// Notes where each entry ends that lies whole in these bytes, the first of which stands at an
/// offset. Gives how many of the bytes they take.
fn list_ends(seen: &[u8], start: usize, ends: &mut Vec<usize>) -> usize
    requires room { 5 * length ends.old.items + length seen.now ≤ 5 * vec_capacity ends.old + 4 }
    requires small { start + length seen.now < 2 ^ 63 }
    ensures marks { (bytes file behind : List ℕ) → length bytes ≡ start → AreEnds 0 ends.old.items start
        → Opens (bodies_from 0 ends.old.items bytes) file (seen.now ++ behind)
        → Opens (bodies_from 0 ends.new.items (bytes ++ take result seen.now)) file (drop result seen.now ++ behind) }
    ensures ends { AreEnds 0 ends.old.items start → AreEnds 0 ends.new.items (start + result) }
    ensures moved { 0 < result → (result < length seen.now) × (length ends.old.items < length ends.new.items) }
    ensures within { result ≤ length seen.now }
    ensures grown { length ends.old.items ≤ length ends.new.items }
{
    let mut rest = seen;
    while let Some((_body, behind)) = entry_in(rest) {
        rest = behind;
        ends.push_reserved(start + (seen.len() - rest.len()));
    }
    seen.len() - rest.len()
}

/// Where the gate before the body of an index stands: where the body before it ends.
fn start_of(ends: &[usize], index: usize) -> usize
    requires { index ≤ length ends.now }
    ensures { result ≡ get_or (0 ∷ ends.now) index 0 }
{
    if index == 0 { 0 } else { ends[index - 1] }
}

/// The bytes from one place up to another, without the byte there.
fn stretch(bytes: &[u8], start: usize, end: usize) -> &[u8]
    requires { (start ≤ end) × (end ≤ length bytes.now) }
    ensures { result.now ≡ bytes_between start end bytes.now }
{
    let (_, rest) = bytes.split_at(start);
    let (body, _) = rest.split_at(end - start);
    body
}
