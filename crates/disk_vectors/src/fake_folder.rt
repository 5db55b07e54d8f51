//! A folder in memory with one file, and one that may take its place, whose calls can be made to
//! fail, and which knows what it was asked. It stands for the operating system under a `FileDisk`.
//! medium_tests.rt uses it.
use crate::medium::{Bytes, Medium, get, no_bytes};
use real_outside::{Folder, Identity, RawFile};
use std::cell::Cell;
use std::io;
use std::io::ErrorKind;
use std::os::unix::fs::FileExt;

/// How many calls are noted.
const MOST_NOTED: usize = 64;

/// By how much the number of the file that may take the place of another is greater.
const NEXT: u64 = 100;

/// A call of the system.
#[derive(Clone, Copy, Debug, PartialEq, Eq)]
pub(crate) enum Call {
    /// The file is opened to be read and written.
    Open,
    /// The file is opened to be read alone.
    Look,
    /// The file is made.
    Make,
    /// The file that may take its place is made.
    Next,
    /// The name is given to that one.
    Replace,
    /// The lock of the file is asked for.
    Hold,
    /// Bytes are written to the file.
    Write,
    /// The file is synced.
    Sync,
    /// The folder is synced.
    Folder,
}

/// The letter of a call in the rows of medium_tests.rt.
fn letter_of(call: Call) -> u8 {
    match call {
        Call::Open => b'o',
        Call::Look => b'l',
        Call::Make => b'm',
        Call::Next => b'n',
        Call::Replace => b'r',
        Call::Hold => b'h',
        Call::Write => b'w',
        Call::Sync => b's',
        Call::Folder => b'f',
    }
}

/// All that the system knows of the folder and its file.
#[derive(Clone, Copy)]
pub(crate) struct System {
    /// The file that has the name, in memory and on the medium.
    pub(crate) file: Medium,
    /// The file that may take its place, if there is one.
    pub(crate) next: Option<Medium>,
    /// What has the name on the medium, if that is another file than in memory.
    named: Option<Medium>,
    /// Whether a new name is on the medium at once, and not only with the folder's sync.
    pub(crate) is_eager: bool,
    /// Whether the name is a symbolic link.
    pub(crate) is_link: bool,
    /// Whether another program renews the file just before its lock is asked for.
    pub(crate) is_overtaken: bool,
    /// What another program writes in the course of the next sync of the file.
    pub(crate) meanwhile: Option<(usize, Bytes)>,
    /// What another program makes of the file just before it is made.
    pub(crate) made: Option<Bytes>,
    /// Whether the folder has the file in memory.
    pub(crate) is_there: bool,
    /// Whether the folder has the file on the medium.
    pub(crate) is_listed: bool,
    /// Which file has the name.
    pub(crate) number: u64,
    /// The next call of this kind fails, with this error.
    pub(crate) failing: Option<(Call, ErrorKind)>,
    /// After so many more calls nothing is done any more.
    pub(crate) calls_left: u64,
    /// Reads and writes come to two bytes at most.
    pub(crate) is_short: bool,
    /// Whether the last read or write was interrupted, if every other one is.
    pub(crate) is_interrupted: bool,
    /// Whether another program has the lock of the file.
    pub(crate) is_held: bool,
    /// The letters of the calls since they were asked for last.
    noted: [u8; MOST_NOTED],
    /// How many letters there are.
    count: usize,
}

/// A folder without a file.
pub(crate) fn new_system() -> System {
    System {
        file: Medium::of(no_bytes()),
        next: None,
        named: None,
        is_eager: false,
        is_link: false,
        is_overtaken: false,
        meanwhile: None,
        made: None,
        is_there: false,
        is_listed: false,
        number: 1,
        failing: None,
        calls_left: u64::MAX,
        is_short: false,
        is_interrupted: false,
        is_held: false,
        noted: [0; MOST_NOTED],
        count: 0,
    }
}

impl System {
    /// Takes a call and notes it. It fails if the call is to fail.
    fn take(&mut self, call: Call) -> io::Result<()> {
        if self.calls_left == 0 {
            return Err(io::Error::from(ErrorKind::Other));
        }
        self.calls_left -= 1;
        if let Some(place) = self.noted.get_mut(self.count) {
            *place = letter_of(call);
            self.count = self.count.saturating_add(1);
        }
        let failing = self.failing;
        if let Some((kind, error)) = failing {
            if kind == call {
                self.failing = None;
                return Err(io::Error::from(error));
            }
        }
        Ok(())
    }

    /// Whether these were the calls since this was asked last.
    pub(crate) fn were(&mut self, calls: &str) -> bool {
        let wanted = calls.as_bytes();
        let mut same = self.count == wanted.len();
        for index in 0..wanted.len() {
            same = same && self.noted.get(index) == wanted.get(index);
        }
        self.count = 0;
        same
    }

    /// Gives the file these bytes, in memory and on the medium.
    pub(crate) fn has(&mut self, bytes: Bytes) {
        self.file = Medium::of(bytes);
        self.is_there = true;
        self.is_listed = true;
    }

    /// Cuts the power and gives it back: what is not on the medium is lost.
    pub(crate) fn cut(&mut self) {
        self.take_names();
        self.file.cut();
    }

    /// The same, where each write since the last sync is torn.
    pub(crate) fn tear(&mut self) {
        self.take_names();
        self.file.tear();
    }

    /// The names are those that the medium has.
    fn take_names(&mut self) {
        if let Some(named) = self.named {
            self.file = named;
        }
        self.named = None;
        self.is_there = self.is_listed;
        self.calls_left = u64::MAX;
        self.failing = None;
    }

    /// Gives the name to the file that may take it.
    fn replace(&mut self) -> io::Result<()> {
        let Some(next) = self.next else {
            return Err(io::Error::from(ErrorKind::NotFound));
        };
        if !self.is_eager {
            self.named = Some(self.file);
        }
        self.file = next;
        self.next = None;
        self.number = self.number.saturating_add(NEXT);
        Ok(())
    }

    /// The file of this number, if it is there.
    fn medium(&self, number: u64) -> Option<Medium> {
        if number == self.number {
            return Some(self.file);
        }
        if number == self.number.saturating_add(NEXT) {
            return self.next;
        }
        None
    }

    /// The file of this number is so from now on, if it is there.
    fn keep(&mut self, number: u64, medium: Medium) {
        if number == self.number {
            self.file = medium;
        }
        if number == self.number.saturating_add(NEXT) {
            self.next = Some(medium);
        }
    }

    /// How many bytes of so many a read or a write comes to, or that it is interrupted.
    fn share(&mut self, count: usize) -> io::Result<usize> {
        if !self.is_short {
            return Ok(count);
        }
        self.is_interrupted = !self.is_interrupted;
        if self.is_interrupted {
            return Err(io::Error::from(ErrorKind::Interrupted));
        }
        Ok(count.min(2))
    }
}

/// The folder, as a program has it.
#[derive(Drop)]
pub(crate) struct FakeFolder<'a> {
    /// What the system knows.
    pub(crate) system: &'a Cell<System>,
}

/// An open file of the folder, as a program has it.
#[derive(Drop)]
pub(crate) struct FakeFile<'a> {
    /// What the system knows.
    system: &'a Cell<System>,
    /// Which file it is, whatever has its name now.
    number: u64,
}

/// Makes a call of the system, and gives what the system knows after it.
fn ask(cell: &Cell<System>, what: Call) -> io::Result<System> {
    let mut system = cell.get();
    let outcome = system.take(what);
    cell.set(system);
    outcome?;
    Ok(system)
}

impl<'a> FakeFolder<'a> {
    /// Opens the file by this call, if the folder has one.
    fn opened(&self, kind: Call) -> io::Result<FakeFile<'a>> {
        let system = ask(self.system, kind)?;
        if !system.is_there {
            return Err(io::Error::from(ErrorKind::NotFound));
        }
        Ok(FakeFile {
            system: self.system,
            number: system.number,
        })
    }
}

impl<'a> Folder for FakeFolder<'a> {
    type File = FakeFile<'a>;

    /// Opens the one file, whatever the name.
    fn open(&self, _name: &str) -> io::Result<FakeFile<'a>> {
        self.opened(Call::Open)
    }

    /// Opens the one file to be read alone.
    fn open_to_read(&self, _name: &str) -> io::Result<FakeFile<'a>> {
        self.opened(Call::Look)
    }

    /// Makes the file without a byte, in memory alone.
    fn make(&self, _name: &str) -> io::Result<FakeFile<'a>> {
        let mut system = ask(self.system, Call::Make)?;
        if let Some(bytes) = system.made {
            system.has(bytes);
            self.system.set(system);
        }
        if system.is_there || system.is_link {
            return Err(io::Error::from(ErrorKind::AlreadyExists));
        }
        system.file = Medium::of(no_bytes());
        system.is_there = true;
        self.system.set(system);
        Ok(FakeFile {
            system: self.system,
            number: system.number,
        })
    }

    /// The number of the file that has the name now.
    fn identity(&self, _name: &str) -> io::Result<Identity> {
        let system = self.system.get();
        if !system.is_there {
            return Err(io::Error::from(ErrorKind::NotFound));
        }
        Ok(Identity {
            device: 1,
            number: system.number,
        })
    }

    /// Whether the name is a link.
    fn is_link(&self, _name: &str) -> io::Result<bool> {
        Ok(self.system.get().is_link)
    }

    /// Makes the file without a byte, whatever an earlier command left there.
    fn make_next(&self, _name: &str, _like: &FakeFile<'a>) -> io::Result<FakeFile<'a>> {
        let mut system = ask(self.system, Call::Next)?;
        system.next = Some(Medium::of(no_bytes()));
        self.system.set(system);
        Ok(FakeFile {
            system: self.system,
            number: system.number.saturating_add(NEXT),
        })
    }

    /// Gives it the name, in memory alone or at once on the medium too.
    fn replace(&self, _name: &str) -> io::Result<()> {
        let mut system = ask(self.system, Call::Replace)?;
        system.replace()?;
        self.system.set(system);
        Ok(())
    }

    /// Removes it, unless the system does nothing any more.
    fn discard(&self, _name: &str) {
        let mut system = self.system.get();
        if system.calls_left > 0 {
            system.next = None;
            self.system.set(system);
        }
    }

    fn sync(&self) -> io::Result<()> {
        // The medium has the name of the file as memory has it.
        let mut system = ask(self.system, Call::Folder)?;
        system.is_listed = system.is_there;
        system.named = None;
        self.system.set(system);
        Ok(())
    }
}

impl FakeFile<'_> {
    /// The file as it is now, and without a byte if it has no name any more.
    fn medium(&self, system: &System) -> Medium {
        system.medium(self.number).unwrap_or(Medium::of(no_bytes()))
    }
}

impl FileExt for FakeFile<'_> {
    /// Reads from memory. It is not noted as a call.
    fn read_at(&self, buf: &mut [u8], offset: u64) -> io::Result<usize> {
        let mut system = self.system.get();
        let share = system.share(buf.len());
        self.system.set(system);
        let at = usize::try_from(offset).unwrap_or(usize::MAX);
        Ok(get(&self.medium(&system).memory, at, share?, buf))
    }

    /// Writes into memory, and marks the pages.
    fn write_at(&self, buf: &[u8], offset: u64) -> io::Result<usize> {
        let mut system = ask(self.system, Call::Write)?;
        let share = system.share(buf.len());
        self.system.set(system);
        let count = share?.min(buf.len());
        let at = usize::try_from(offset).unwrap_or(usize::MAX);
        let mut medium = self.medium(&system);
        medium.write(at, &buf[..count]);
        system.keep(self.number, medium);
        self.system.set(system);
        Ok(count)
    }
}

impl RawFile for FakeFile<'_> {
    /// The number of bytes in memory.
    fn length(&self) -> io::Result<u64> {
        let system = self.system.get();
        Ok(self.medium(&system).memory.len as u64)
    }

    /// The number that the file had when it was opened.
    fn identity(&self) -> io::Result<Identity> {
        Ok(Identity {
            device: 1,
            number: self.number,
        })
    }

    /// False if another program has the lock. One that renewed the file just before gave its name to
    /// another one.
    fn hold(&self) -> io::Result<bool> {
        let mut system = ask(self.system, Call::Hold)?;
        if system.is_overtaken {
            system.is_overtaken = false;
            system.number = system.number.saturating_add(1);
            self.system.set(system);
        }
        Ok(!system.is_held)
    }

    fn sync(&self) -> io::Result<()> {
        // A sync that fails takes the marks away too, unless the system does nothing any more.
        let outcome = ask(self.system, Call::Sync);
        let mut system = self.system.get();
        let mut medium = self.medium(&system);
        if outcome.is_ok() {
            medium.store();
        } else if system.calls_left > 0 {
            medium.unmark();
        }
        if let Some((at, bytes)) = system.meanwhile {
            system.meanwhile = None;
            medium.write(at, &bytes.all[..bytes.len.min(bytes.all.len())]);
        }
        system.keep(self.number, medium);
        self.system.set(system);
        outcome?;
        Ok(())
    }
}
