//! The texts of the files of a command, or the first file that can't be read, with its line of
//! output. The commands of this crate read their files so.
ghost use Rattle.std.specs.Prelude.{◌≡◌, ◌≤◌, ◌<◌, ◌^◌, [], ◌∷◌, ◌++◌, length, option_map, OnOk, IfOk, IfErr};
ghost use Rattle.block_order.specs.Answers.{IfFault};
ghost use Rattle.nc_outside.specs.Files.{HoldsOn};
ghost use Rattle.lathe_calls.specs.Answers.{Ends, IsJust, tells};
ghost use Rattle.lathe_calls.specs.declared.pair_texts.TheConstants.{LONGEST_SETTINGS};
ghost use Rattle.lathe_looks.specs.Named.{edits_named, named_file, only_text, pair_texts, settings_named, tape_named, tape_texts, tape_with_settings, with_zones, zones_and_pair, zones_before, zones_named};
ghost use Rattle.lathe_looks.specs.Texts.{AreShort, files_in, tape_files, texts_of};
ghost use Rattle.tape_calls.specs.Texts.{tape_and_settings};
ghost use Rattle.lathe_looks.specs.Fetched.{AreAsked, AreHad, AreReadAs, FileCause, IsText, IsUnfetched, fault_status, fault_text, file_of, unfetched_answer};

use crate::files::{CommandFile, FileNames};
use lathe_calls::{Status, write_text};
use nc_number::{Both, Failing, NoMemory};
use nc_outside::{FetchFault, Shelf, Sink};
use std::alloc::Global;
use text_pieces::push_bytes;

/// Why a file can't be read.
#[derive(Clone, Copy, Debug, PartialEq, Eq)]
pub enum FileFault {
    /// The shelf failed.
    Failed,
    /// There is no file of the name.
    Absent,
    /// The file has more bytes than a file of its kind may have.
    TooLong,
}

/// A file that can't be read, by the name that the command gives it, and why.
#[derive(Clone, Copy, Debug)]
pub struct Unfetched<'a> {
    /// Which of the command's files it is.
    pub file: CommandFile,
    /// The name that the command gives it.
    pub name: &'a str,
    /// Why it can't be read.
    pub fault: FileFault,
}

/// The texts of both tapes and of the settings.
#[derive(Drop)]
pub struct Texts {
    /// The texts of the tapes, by path.
    pub tapes: Both<Vec<u8>>,
    /// The text of the settings.
    pub settings: Vec<u8>,
}

/// The texts of a tape and of its settings, as they were read.
#[derive(Drop)]
pub(crate) struct ReadTape {
    /// The text of the tape.
    pub(crate) tape: Vec<u8>,
    /// The text of the settings.
    pub(crate) settings: Vec<u8>,
}

/// A text of zones and the texts of a pair, as they were read.
#[derive(Drop)]
pub(crate) struct ReadZones {
    /// The text of zones.
    pub(crate) zones: Vec<u8>,
    /// The texts of the pair.
    pub(crate) pair: Texts,
}

/// The text of one file from the shelf. Errors: why it can't be read, or out of memory.
fn fetch<'a, H: Shelf>(
    alloc: Global,
    shelf: &mut H,
    file: CommandFile,
    name: &'a str,
) -> Result<Vec<u8>, Failing<Unfetched<'a>>>
    ensures text { IfOk result (λ text. IsText (H.state shelf.old).files (named_file file name.now) text.items) }
    ensures not_had { IfErr result (λ error. IfFault error (λ unfetched. (file_of unfetched ≡ named_file file name.now)
        × FileCause (H.state shelf.old) (H.state shelf.new) (named_file file name.now) unfetched.fault)) }
    ensures files { HoldsOn (H.state shelf.old) (H.state shelf.new) }
    ensures asked { AreAsked (H.state shelf.old).asked (H.state shelf.new).asked (named_file file name.now ∷ []) }
    ensures later { (H.state shelf.old).faults ≤ (H.state shelf.new).faults }
    ensures calm { OnOk result ((H.state shelf.new).faults ≡ (H.state shelf.old).faults) }
{
    let mut text = Vec::new(alloc);
    match shelf.fetch(name, &mut text, file.most_bytes()) {
        Ok(()) => Ok(text),
        Err(FetchFault::Failed) => Err(not_had(file, name, FileFault::Failed)),
        Err(FetchFault::Absent) => Err(not_had(file, name, FileFault::Absent)),
        Err(FetchFault::TooLong) => Err(not_had(file, name, FileFault::TooLong)),
        Err(FetchFault::NoMemory) => Err(Failing::NoMemory),
    }
}

/// The error for a file that can't be read.
fn not_had(file: CommandFile, name: &str, fault: FileFault) -> Failing<Unfetched<'_>>
    ensures { IfFault result (λ unfetched. (file_of unfetched ≡ named_file file name.now) × (unfetched.fault ≡ fault)) }
{
    Failing::Fault(Unfetched { file, name, fault })
}

/// The texts of both tapes, path 1's first. Errors: the first file that can't be read, or out of
/// memory.
fn fetch_tapes<'a, H: Shelf>(
    alloc: Global,
    shelf: &mut H,
    names: &Both<&'a str>,
) -> Result<Both<Vec<u8>>, Failing<Unfetched<'a>>>
    ensures texts { IfOk result (λ tapes. AreHad (H.state shelf.old) (H.state shelf.new)
        (tape_files names.now) (tapes.one.items ∷ tapes.two.items ∷ [])) }
    ensures not_had { IfErr result (IsUnfetched (H.state shelf.old) (H.state shelf.new) (tape_files names.now)) }
    ensures files { HoldsOn (H.state shelf.old) (H.state shelf.new) }
    ensures later { (H.state shelf.old).faults ≤ (H.state shelf.new).faults }
{
    let one = match fetch(alloc, shelf, CommandFile::Left, names.one) {
        Ok(text) => text,
        Err(error) => return Err(error),
    };
    let two = match fetch(alloc, shelf, CommandFile::Right, names.two) {
        Ok(text) => text,
        Err(error) => return Err(error),
    };
    Ok(Both { one, two })
}

/// The text of the settings; without a name it is empty, and the shelf is asked for nothing. Errors:
/// why the file can't be read, or out of memory.
fn fetch_settings<'a, H: Shelf>(
    alloc: Global,
    shelf: &mut H,
    name: Option<&'a str>,
) -> Result<Vec<u8>, Failing<Unfetched<'a>>>
    ensures text { IfOk result (λ text. AreReadAs only_text (H.state shelf.old) (H.state shelf.new)
        (settings_named (option_map (λ s. s.now) name.entry)) text.items) }
    ensures short { IfOk result (λ text. length text.items ≤ LONGEST_SETTINGS) }
    ensures not_had { IfErr result (IsUnfetched (H.state shelf.old) (H.state shelf.new)
        (settings_named (option_map (λ s. s.now) name.entry))) }
{
    match name {
        Some(name) => fetch(alloc, shelf, CommandFile::Settings, name),
        None => Ok(Vec::new(alloc)),
    }
}

/// The texts of both tapes, and then of the settings; without a name of settings they are empty, and
/// the shelf is not asked for any. Errors: the first file that can't be read, or out of memory.
pub fn fetch_texts<'a, H: Shelf>(
    alloc: Global,
    shelf: &mut H,
    names: &FileNames<'a>,
) -> Result<Texts, Failing<Unfetched<'a>>>
    ensures texts { IfOk result (λ texts. AreReadAs pair_texts (H.state shelf.old) (H.state shelf.new)
        (files_in names.now) (texts_of texts)) }
    ensures short { IfOk result (λ texts. AreShort (texts_of texts)) }
    ensures not_had { IfErr result (IsUnfetched (H.state shelf.old) (H.state shelf.new) (files_in names.now)) }
{
    let tapes = match fetch_tapes(alloc, shelf, &names.tapes) {
        Ok(tapes) => tapes,
        Err(error) => return Err(error),
    };
    match fetch_settings(alloc, shelf, names.settings) {
        Ok(settings) => Ok(Texts { tapes, settings }),
        Err(error) => Err(error),
    }
}

/// The text of the tape of `expand`. Errors: why it can't be read, or out of memory.
pub(crate) fn fetch_tape<'a, H: Shelf>(
    alloc: Global,
    shelf: &mut H,
    name: &'a str,
) -> Result<Vec<u8>, Failing<Unfetched<'a>>>
    ensures text { IfOk result (λ text. AreHad (H.state shelf.old) (H.state shelf.new)
        (tape_named name.now) (text.items ∷ [])) }
    ensures not_had { IfErr result (IsUnfetched (H.state shelf.old) (H.state shelf.new) (tape_named name.now)) }
{
    match fetch(alloc, shelf, CommandFile::Tape, name) {
        Ok(text) => Ok(text),
        Err(error) => Err(error),
    }
}

/// The texts of the tape of `plain` and then of the settings; without a name of settings they are
/// empty, and the shelf is not asked for any. Errors: the first file that can't be read, or out of
/// memory.
pub(crate) fn fetch_tape_texts<'a, H: Shelf>(
    alloc: Global,
    shelf: &mut H,
    name: &'a str,
    settings: Option<&'a str>,
) -> Result<ReadTape, Failing<Unfetched<'a>>>
    ensures texts { IfOk result (λ texts. AreReadAs tape_texts (H.state shelf.old) (H.state shelf.new)
        (tape_with_settings name.now (option_map (λ s. s.now) settings.entry)) (tape_and_settings texts.tape.items texts.settings.items)) }
    ensures short { IfOk result (λ texts. length texts.settings.items ≤ LONGEST_SETTINGS) }
    ensures not_had { IfErr result (IsUnfetched (H.state shelf.old) (H.state shelf.new)
        (tape_with_settings name.now (option_map (λ s. s.now) settings.entry))) }
{
    let tape = match fetch(alloc, shelf, CommandFile::Tape, name) {
        Ok(text) => text,
        Err(error) => return Err(error),
    };
    match fetch_settings(alloc, shelf, settings) {
        Ok(settings) => Ok(ReadTape { tape, settings }),
        Err(error) => Err(error),
    }
}

/// The text of the file of zones. Errors: why it can't be read, or out of memory.
pub(crate) fn fetch_zones<'a, H: Shelf>(
    alloc: Global,
    shelf: &mut H,
    name: &'a str,
) -> Result<Vec<u8>, Failing<Unfetched<'a>>>
    ensures text { IfOk result (λ text. AreHad (H.state shelf.old) (H.state shelf.new)
        (zones_named name.now) (text.items ∷ [])) }
    ensures short { IfOk result (λ text. length text.items < 2 ^ 32) }
    ensures not_had { IfErr result (IsUnfetched (H.state shelf.old) (H.state shelf.new) (zones_named name.now)) }
{
    match fetch(alloc, shelf, CommandFile::Zones, name) {
        Ok(text) => Ok(text),
        Err(error) => Err(error),
    }
}

/// The text of the file of zones, and then the texts of a pair. Errors: the first file that can't be
/// read, or out of memory.
pub(crate) fn fetch_zoned_pair<'a, H: Shelf>(
    alloc: Global,
    shelf: &mut H,
    name: &'a str,
    names: &FileNames<'a>,
) -> Result<ReadZones, Failing<Unfetched<'a>>>
    ensures texts { IfOk result (λ texts. AreReadAs zones_and_pair (H.state shelf.old) (H.state shelf.new)
        (zones_before name.now (files_in names.now)) (with_zones texts.zones.items (texts_of texts.pair))) }
    ensures zones { IfOk result (λ texts. length texts.zones.items ≤ LONGEST_SETTINGS) }
    ensures short { IfOk result (λ texts. AreShort (texts_of texts.pair)) }
    ensures not_had { IfErr result (IsUnfetched (H.state shelf.old) (H.state shelf.new)
        (zones_before name.now (files_in names.now))) }
{
    let zones = match fetch(alloc, shelf, CommandFile::Zones, name) {
        Ok(text) => text,
        Err(error) => return Err(error),
    };
    match fetch_texts(alloc, shelf, names) {
        Ok(pair) => Ok(ReadZones { zones, pair }),
        Err(error) => Err(error),
    }
}

/// The text of the file of edits. Errors: why it can't be read, or out of memory.
pub(crate) fn fetch_edits<'a, H: Shelf>(
    alloc: Global,
    shelf: &mut H,
    name: &'a str,
) -> Result<Vec<u8>, Failing<Unfetched<'a>>>
    ensures text { IfOk result (λ text. AreHad (H.state shelf.old) (H.state shelf.new)
        (edits_named name.now) (text.items ∷ [])) }
    ensures short { IfOk result (λ text. length text.items < 2 ^ 32) }
    ensures not_had { IfErr result (IsUnfetched (H.state shelf.old) (H.state shelf.new) (edits_named name.now)) }
{
    match fetch(alloc, shelf, CommandFile::Edits, name) {
        Ok(text) => Ok(text),
        Err(error) => Err(error),
    }
}

/// Writes the line for a file that can't be read, and gives the exit status; if memory ran out,
/// nothing is written.
pub fn tell_unfetched<K: Sink>(alloc: Global, error: &Failing<Unfetched<'_>>, out: &mut K) -> u8
    ensures { Ends (IsJust (unfetched_answer error.now)) (K.state out.old) (K.state out.new) result }
{
    match error {
        Failing::Fault(missing) => tell_fault(alloc, missing, out),
        Failing::NoMemory => Status::NoMemory as u8,
    }
}

/// Writes the line for this file, and gives the exit status; if memory ran out, nothing is written.
fn tell_fault<K: Sink>(alloc: Global, missing: &Unfetched<'_>, out: &mut K) -> u8
    ensures { Ends (IsJust (tells (fault_status missing.now.fault) (fault_text missing.now.name.now missing.now.fault)))
        (K.state out.old) (K.state out.new) result }
{
    let mut text = Vec::new(alloc);
    if push_fault(&mut text, missing.name, missing.fault).is_err() {
        return Status::NoMemory as u8;
    }
    write_text(out, text.as_slice(), fault_status(missing.fault))
}

/// The exit status for a file that can't be read.
fn fault_status(fault: FileFault) -> u8
    ensures { result ≡ fault_status fault }
{
    let status = match fault {
        FileFault::Failed => Status::ShelfFault,
        FileFault::Absent | FileFault::TooLong => Status::NoFile,
    };
    status as u8
}

/// Adds the line for a file of this name that can't be read. The only error is out of memory.
#[tactic(auto, unfolding(crate::specs::Fetched::fault_text))]
fn push_fault(text: &mut Vec<u8>, name: &str, fault: FileFault) -> Result<(), NoMemory>
    ensures { OnOk result (text.new.items ≡ text.old.items ++ fault_text name.now fault) }
{
    match fault {
        FileFault::Failed => push_bytes(text, b"shelf fault\n"),
        FileFault::Absent => {
            push_bytes(text, b"no file ")?;
            push_bytes(text, name.as_bytes())?;
            push_bytes(text, b"\n")
        }
        FileFault::TooLong => {
            push_bytes(text, b"too long ")?;
            push_bytes(text, name.as_bytes())?;
            push_bytes(text, b"\n")
        }
    }
}
