//! Tests of files of gates (gate_file) on a disk that keeps every image (disk_images): what a crash
//! at any moment leaves, over several syncs.
use disk_images::{Image, ImagesDisk};
use disk_model::Disk;
use gate_file::{BodyList, GateFault, GateFile, LONGEST_BODY};
use std::alloc::{AllocError, Global};
use std::test::Fail;

/// A row: `BODIES|FAILING|DONE|TIME LEFT, ..`. A file of gates is begun on an empty disk with the
/// first body, or with all up to the one with a `;` at once, and the others are appended. The calls
/// of the numbers FAILING fail. DONE bodies were acknowledged. Of each image that a crash since the
/// time may have left, the file has that many bodies, or `-`, no run: all of these occur, and no
/// other; and they are the first ones. A beginning makes 8 calls, of which the last ones sync,
/// write the gate and sync. An append writes, syncs, writes the gate and syncs.
const ROWS: &str = "\
a||1|0 - 1, 7 - 1, 8 1
a bcd||2|0 - 1 2, 7 - 1 2, 8 1 2, 11 1 2, 12 2
a bcd ef g||4|0 - 1 2 3 4, 8 1 2 3 4, 12 2 3 4, 15 2 3 4, 16 3 4, 19 3 4, 20 4
a bcd|10|1|0 - 1, 8 1, 10 1
a bcd|11|1|0 - 1 2, 8 1 2, 10 1 2, 11 1 2
a bcd|12|1|0 - 1 2, 10 1 2, 12 1 2
a bcd ef|16|2|0 - 1 2 3, 12 2 3, 16 2 3
a bcd ef|14|2|0 - 1 2, 8 1 2, 12 2, 14 2
a|7|0|0 - 1, 7 - 1
a|8|0|0 - 1, 8 - 1
a|6|0|0 -, 6 -
a bcd;||2|0 - 2, 7 - 2, 8 2
a bcd ef; g||4|0 - 3 4, 7 - 3 4, 8 3 4, 11 3 4, 12 4
a bcd;|1|0|0 -, 1 -
a bcd;|2|0|0 -, 2 -
a bcd;|3|0|0 -, 3 -
a bcd;|4|0|0 -, 4 -
a bcd;|5|0|0 -, 5 -
a bcd;|6|0|0 -, 6 -
a bcd;|7|0|0 - 2, 7 - 2
a bcd;|8|0|0 - 2, 8 - 2";

/// The parts between the strokes of a row. A missing part is empty.
fn columns(row: &str) -> [&str; 4] {
    let mut parts = row.split("|");
    let first = parts.next().unwrap_or("");
    let second = parts.next().unwrap_or("");
    let third = parts.next().unwrap_or("");
    [first, second, third, parts.next().unwrap_or("")]
}

/// The number that the text writes, or the greatest that there is.
fn number(text: &str) -> u64 {
    text.parse().unwrap_or(u64::MAX)
}

/// Appends the body, if the file is live, and says whether that was done.
fn is_appended(file: &mut GateFile<ImagesDisk>, body: &[u8]) -> bool {
    file.is_live() && body.len() <= LONGEST_BODY && file.append(body).is_ok()
}

/// Appends the other bodies. It answers how many bodies were acknowledged, with those that were
/// there.
fn append_each(file: &mut GateFile<ImagesDisk>, there: u64, bodies: &str) -> u64 {
    let mut done = there;
    for body in bodies.split_whitespace() {
        if is_appended(file, body.as_bytes()) {
            done = done.saturating_add(1);
        }
    }
    done
}

/// The bodies as a list.
fn list_of(alloc: Global, bodies: &str) -> Result<BodyList, AllocError> {
    let mut list = BodyList::empty(alloc);
    for body in bodies.split_whitespace() {
        let body = body.as_bytes();
        if body.len() <= LONGEST_BODY {
            list.push(body)?;
        }
    }
    Ok(list)
}

/// Begins a file of the first bodies at once and appends the others. It answers the disk then, and
/// how many were acknowledged.
fn filled(alloc: Global, disk: ImagesDisk, list: &BodyList, others: &str) -> (ImagesDisk, u64) {
    if list.is_empty() {
        return (disk, 0);
    }
    match GateFile::create_filled(alloc, disk, list) {
        Ok(file) => {
            let mut file = file;
            let done = append_each(&mut file, list.len() as u64, others);
            (file.into_disk(), done)
        }
        Err((disk, _)) => (disk, 0),
    }
}

/// Begins a file of the first body and appends the others. It answers the disk then, and how many
/// were acknowledged.
fn created(alloc: Global, disk: ImagesDisk, bodies: &str) -> (ImagesDisk, u64) {
    let (first, others) = bodies.split_once(' ').unwrap_or((bodies, ""));
    let first = first.as_bytes();
    if first.len() > LONGEST_BODY {
        return (disk, 0);
    }
    match GateFile::create(alloc, disk, first) {
        Ok(file) => {
            let mut file = file;
            let done = append_each(&mut file, 1, others);
            (file.into_disk(), done)
        }
        Err((disk, _)) => (disk, 0),
    }
}

/// Begins a file as the row says. It answers the disk then, and how many bodies were acknowledged.
fn used(alloc: Global, disk: ImagesDisk, bodies: &str) -> Result<(ImagesDisk, u64), AllocError> {
    match bodies.split_once(";") {
        Some((first, others)) => {
            let list = list_of(alloc, first)?;
            Ok(filled(alloc, disk, &list, others))
        }
        None => Ok(created(alloc, disk, bodies)),
    }
}

/// The bytes of a body, without the `;` after it.
fn body_of(word: &str) -> &[u8] {
    word.strip_suffix(";").unwrap_or(word).as_bytes()
}

/// Whether the bodies are the first ones of the row.
fn are_first(list: &BodyList, bodies: &str) -> bool {
    let mut number = 0usize;
    let mut are_all = list.len() <= bodies.split_whitespace().count();
    for word in bodies.split_whitespace() {
        are_all &= list.get(number).unwrap_or(body_of(word)) == body_of(word);
        number = number.saturating_add(1);
    }
    are_all
}

/// Why there are no bodies: `-`, no run, or another word.
fn word_of(fault: GateFault) -> &'static str {
    match fault {
        GateFault::NoRun => "-",
        GateFault::Cut(_) => "cut",
        _other => "fault",
    }
}

/// Writes how many bodies there are, if they are the first ones of the row, and else `others`.
fn put_count(out: &mut String, list: &BodyList, bodies: &str) -> Result<(), AllocError> {
    if are_first(list, bodies) {
        write!(out, "{}", list.len())
    } else {
        out.push_str("others")
    }
}

/// Writes what an opening of the disk finds, as a word.
fn put_found(
    alloc: Global,
    out: &mut String,
    disk: ImagesDisk,
    bodies: &str,
) -> Result<(), AllocError> {
    match GateFile::open_file(alloc, disk) {
        Ok((_file, list)) => put_count(out, &list, bodies),
        Err((_disk, fault)) => out.push_str(word_of(fault)),
    }
}

/// What each of the images holds, a word for each.
fn found_in(alloc: Global, images: &[Image], bodies: &str) -> Result<String, Fail> {
    let mut out = String::new(alloc);
    for image in images {
        let held = image.as_slice().to_vec(alloc)?;
        put_found(alloc, &mut out, ImagesDisk::new(alloc, held, &[])?, bodies)?;
        out.push(' ')?;
    }
    Ok(out)
}

/// Whether each word of the first text is one of the second.
fn are_among(words: &str, others: &str) -> bool {
    let mut are_all = true;
    for word in words.split_whitespace() {
        are_all &= others.split_whitespace().any(|other| other == word);
    }
    are_all
}

/// Whether a crash since the time of the part may have left what it says, and nothing else.
fn leaves(alloc: Global, disk: &ImagesDisk, bodies: &str, part: &str) -> Result<bool, Fail> {
    let (time, words) = part.split_once(' ').unwrap_or((part, ""));
    let images = disk.images_since(number(time))?;
    let found = found_in(alloc, images.as_slice(), bodies)?;
    Ok(are_among(words, found.as_str()) && are_among(found.as_str(), words))
}

/// Whether a crash may have left what each part says, and nothing else.
fn leaves_each(alloc: Global, disk: &ImagesDisk, bodies: &str, parts: &str) -> Result<bool, Fail> {
    let mut are_right = true;
    for part in parts.split(", ") {
        are_right &= leaves(alloc, disk, bodies, part)?;
    }
    Ok(are_right)
}

/// Whether what the row says holds.
fn holds(alloc: Global, row: &str) -> Result<bool, Fail> {
    let [bodies, failing, wanted, left] = columns(row);
    let disk = ImagesDisk::new(alloc, Vec::new(alloc), &[number(failing)])?;
    let (disk, done) = used(alloc, disk, bodies)?;
    Ok(done == number(wanted) && leaves_each(alloc, &disk, bodies, left)?)
}

#[test]
fn a_crash_at_any_moment_leaves_whole_bodies(rt: HostRuntime) -> Result<(), Fail> {
    for row in ROWS.lines() {
        assert!(&rt; holds(rt.alloc(), row)?, "{row}");
    }
    Ok(())
}
