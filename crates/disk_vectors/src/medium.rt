//! A file of the fake folder, as the system has it in memory and as its medium has it.
//! fake_folder.rt and medium_tests.rt use it.
ghost use Rattle.std.specs.Prelude.{◌≡◌, ◌≤◌, length, take};

/// How many bytes the file has room for.
pub(crate) const ROOM: usize = 64;

/// How many bytes the system writes at once.
const PAGE: usize = 8;

/// How many pages the file has.
const PAGES: usize = 8;

/// What a torn write leaves.
const TORN: u8 = 7;

/// Bytes, and how many there are.
#[derive(Clone, Copy)]
pub(crate) struct Bytes {
    /// The room; what lies behind the bytes is 0.
    pub(crate) all: [u8; ROOM],
    /// How many bytes there are.
    pub(crate) len: usize,
}

/// A file as the system has it in memory, and as its medium has it.
///
/// What is written lies in memory, and its pages are marked. A sync puts the marked pages on the
/// medium and takes the marks away. One that fails takes them away too, as Linux does: a later sync
/// then has nothing to write. Until a sync was done a power cut may leave anything in each byte that
/// was written, also in one that had the same value before.
#[derive(Clone, Copy)]
pub(crate) struct Medium {
    /// The file as the system has it in memory.
    pub(crate) memory: Bytes,
    /// The file as the medium has it.
    pub(crate) stored: Bytes,
    /// Whether each page was written since the last sync.
    marks: [bool; PAGES],
    /// Whether each byte was written since the last sync that was done.
    written: [bool; ROOM],
}

/// A file's bytes if it has none.
pub(crate) fn no_bytes() -> Bytes {
    Bytes {
        all: [0; ROOM],
        len: 0,
    }
}

/// Bytes, told as text: a digit stands for its value, and any other character for itself.
pub(crate) fn bytes_of(text: &str) -> Bytes {
    let mut bytes = no_bytes();
    put(&mut bytes, 0, text.as_bytes());
    for byte in &mut bytes.all {
        if byte.is_ascii_digit() {
            *byte -= b'0';
        }
    }
    bytes
}

/// Whether these are the bytes that a text tells.
pub(crate) fn are(found: &Bytes, text: &str) -> bool {
    let wanted = bytes_of(text);
    found.len == wanted.len && found.all == wanted.all
}

/// Puts bytes in at a place, as far as there is room.
pub(crate) fn put(bytes: &mut Bytes, at: usize, more: &[u8]) {
    for index in 0..more.len() {
        if let Some(place) = bytes.all.get_mut(at.saturating_add(index)) {
            *place = more[index];
        }
    }
    bytes.len = bytes.len.max(at.saturating_add(more.len()).min(ROOM));
}

/// Copies what stands from a place on, as much as there is and the slice has room for, but no more
/// than `most`, and answers how much.
pub(crate) fn get(bytes: &Bytes, at: usize, most: usize, into: &mut [u8]) -> usize
    ensures bound { result ≤ length into.new }
    ensures taken { result ≡ length (take result into.new) }
{
    let count = bytes.len.saturating_sub(at).min(most).min(into.len());
    for index in 0..count {
        if let Some(byte) = bytes.all.get(at.saturating_add(index)) {
            into[index] = *byte;
        }
    }
    count
}

impl Medium {
    /// A file that is on the medium as it is in memory.
    pub(crate) fn of(bytes: Bytes) -> Medium {
        Medium {
            memory: bytes,
            stored: bytes,
            marks: [false; PAGES],
            written: [false; ROOM],
        }
    }

    /// Writes into memory, and marks the pages.
    pub(crate) fn write(&mut self, at: usize, bytes: &[u8]) {
        put(&mut self.memory, at, bytes);
        for index in 0..bytes.len() {
            let place = at.saturating_add(index);
            if let Some(mark) = self.marks.get_mut(place / PAGE) {
                *mark = true;
            }
            if let Some(written) = self.written.get_mut(place) {
                *written = true;
            }
        }
    }

    /// Puts the marked pages on the medium.
    pub(crate) fn store(&mut self) {
        for index in 0..ROOM {
            if self.marks[index / PAGE] {
                self.stored.all[index] = self.memory.all[index];
            }
        }
        self.stored.len = self.memory.len;
        self.written = [false; ROOM];
        self.unmark();
    }

    /// What is in memory is taken for what is on the medium.
    pub(crate) fn unmark(&mut self) {
        self.marks = [false; PAGES];
    }

    /// What a power cut leaves at least.
    pub(crate) fn cut(&mut self) {
        self.memory = self.stored;
        self.written = [false; ROOM];
        self.unmark();
    }

    /// What a power cut leaves if it tears each write: a 7 in each byte that was written since the
    /// last sync.
    pub(crate) fn tear(&mut self) {
        for index in 0..ROOM {
            if self.written[index] {
                self.stored.all[index] = TORN;
            }
        }
        self.stored.len = self.stored.len.max(self.memory.len);
        self.cut();
    }
}
