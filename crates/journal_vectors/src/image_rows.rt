//! Tests of disks that keep every image (disk_images): what the calls answer, and which images a
//! crash since some time may have left.
use crate::rows::columns;
use disk_images::{Image, ImagesDisk};
use disk_model::{Disk, Failed};
use std::alloc::{AllocError, Global};
use std::test::Fail;

/// `HELD|FAILING|CALLS|ANSWERS|TIME IMAGES, ..`: the bytes of the disk, the numbers of the calls
/// that are to fail, the calls and what each answers, and all images that a crash since some time
/// may have left, in any order. A time is a number of calls. `.` is a zero byte, and `-` a file
/// without bytes.
const ROWS: &str = "\
ab|||/|0 ab
ab||write 0 xy|done|0 ab xb xy, 1 ab xb xy
ab||write 0 xy, sync|done done|0 ab xb xy, 1 ab xb xy, 2 xy
-||write 0 a, sync, write 1 b, write 0 c|done done done done|0 - a ab c cb, 1 - a ab c cb, 2 a ab c cb, 3 a ab c cb, 4 a ab c cb
-||write 0 a, sync, write 0 b, sync, write 0 c, sync, write 0 d|done done done done done done done|0 - a b c d, 1 - a b c d, 2 a b c d, 3 a b c d, 4 b c d, 5 b c d, 6 c d, 7 c d
ab|2|write 0 x, sync, read 0|done failed 2:xb|0 ab xb, 2 ab xb, 3 ab xb
ab|2|write 0 x, sync, sync, read 0|done failed done 2:xb|0 ab xb, 2 ab xb, 3 xb, 4 xb
ab|1|write 1 zz, read 0, faults|failed 2:ab 1|0 ab az azz, 2 ab az azz
ab|1|write 1 zz, sync|failed done|1 ab az azz, 2 ab
a||write 3 z, len|done 4|0 a a..z
ab||write 1 xy, write 2 z|done done|0 ab ax axy abz axz
abc||len, read 1, read 3, read greatest|3 2:bc 0: 0:|0 abc
abc|1 3|len, read 0, sync, faults|failed 3:abc failed 2|0 abc
ab||write greatest x, write 4611686018427387903 x, faults|failed failed 2|0 ab
ab||sync, sync, write 0 x, sync, sync|done done done done done|0 ab xb, 2 ab xb, 3 ab xb, 4 xb, 5 xb";

/// The number that the text writes, or the greatest that there is.
fn number(text: &str) -> u64 {
    text.parse().unwrap_or(u64::MAX)
}

/// The byte that a letter stands for.
fn byte_of(letter: u8) -> u8 {
    if letter == b'.' { 0 } else { letter }
}

/// The bytes that a word stands for.
fn bytes_of(alloc: Global, word: &str) -> Result<Vec<u8>, AllocError> {
    let mut out = Vec::new(alloc);
    if word != "-" {
        for letter in word.as_bytes() {
            out.push(byte_of(*letter))?;
        }
    }
    Ok(out)
}

/// The numbers that the words write.
fn numbers(alloc: Global, text: &str) -> Result<Vec<u64>, AllocError> {
    let mut out = Vec::new(alloc);
    for word in text.split_whitespace() {
        out.push(number(word))?;
    }
    Ok(out)
}

/// The word for whether a call was done.
fn word_of(done: Result<(), Failed>) -> &'static str {
    if done.is_ok() { "done" } else { "failed" }
}

/// Reads at an offset, eight bytes at most: how many there are, and which.
fn put_read(out: &mut String, disk: &mut ImagesDisk, at: u64) -> Result<(), AllocError> {
    let mut room = [0; 8];
    match disk.read_at(at, &mut room) {
        Ok(count) => {
            write!(out, "{count}:")?;
            put_letters(out, &room[..count])
        }
        Err(_) => out.push_str("failed"),
    }
}

/// The bytes as letters.
fn put_letters(out: &mut String, bytes: &[u8]) -> Result<(), AllocError> {
    for byte in bytes {
        out.push(char::from(*byte))?;
    }
    Ok(())
}

/// The number of bytes.
fn put_len(out: &mut String, disk: &mut ImagesDisk) -> Result<(), AllocError> {
    match disk.len() {
        Ok(len) => write!(out, "{len}"),
        Err(_) => out.push_str("failed"),
    }
}

/// Makes one call, and puts its answer.
fn put_answer(
    alloc: Global,
    out: &mut String,
    disk: &mut ImagesDisk,
    call: &str,
) -> Result<(), AllocError> {
    let (name, rest) = call.split_once(' ').unwrap_or((call, ""));
    let (at, what) = rest.split_once(' ').unwrap_or((rest, ""));
    match name {
        "sync" => out.push_str(word_of(disk.sync())),
        "write" => {
            let bytes = bytes_of(alloc, what)?;
            out.push_str(word_of(disk.write_at(number(at), bytes.as_slice())))
        }
        "len" => put_len(out, disk),
        "read" => put_read(out, disk, number(at)),
        "faults" => write!(out, "{}", disk.faults()),
        _none => out.push('/'),
    }
}

/// Makes the calls: what they answer.
fn answers(alloc: Global, disk: &mut ImagesDisk, calls: &str) -> Result<String, AllocError> {
    let mut out = String::new(alloc);
    for call in calls.split(", ") {
        if !out.is_empty() {
            out.push(' ')?;
        }
        put_answer(alloc, &mut out, disk, call)?;
    }
    Ok(out)
}

/// Whether one of the images is that of the word.
fn has(alloc: Global, images: &[Image], word: &str) -> Result<bool, AllocError> {
    let bytes = bytes_of(alloc, word)?;
    Ok(
        images
            .iter()
            .any(|image| image.as_slice() == bytes.as_slice()),
    )
}

/// Whether each word is that of an image.
fn has_each(alloc: Global, images: &[Image], words: &str) -> Result<bool, AllocError> {
    let mut has_all = true;
    for word in words.split_whitespace() {
        has_all &= has(alloc, images, word)?;
    }
    Ok(has_all)
}

/// Whether one of the words is that of the image.
fn is_wanted(alloc: Global, image: &Image, words: &str) -> Result<bool, AllocError> {
    let mut is_one = false;
    for word in words.split_whitespace() {
        is_one |= bytes_of(alloc, word)?.as_slice() == image.as_slice();
    }
    Ok(is_one)
}

/// Whether each image is that of a word.
fn are_wanted(alloc: Global, images: &[Image], words: &str) -> Result<bool, AllocError> {
    let mut are_all = true;
    for image in images {
        are_all &= is_wanted(alloc, image, words)?;
    }
    Ok(are_all)
}

/// Whether a crash since the time of the part may have left the images that it names, and no other.
fn leaves(alloc: Global, disk: &ImagesDisk, part: &str) -> Result<bool, Fail> {
    let (time, words) = part.split_once(' ').unwrap_or((part, ""));
    let images = disk.images_since(number(time))?;
    Ok(has_each(alloc, images.as_slice(), words)? && are_wanted(alloc, images.as_slice(), words)?)
}

/// Whether a crash since the time of each part may have left just the images that it names.
fn leaves_each(alloc: Global, disk: &ImagesDisk, parts: &str) -> Result<bool, Fail> {
    let mut are_right = true;
    for part in parts.split(", ") {
        are_right &= leaves(alloc, disk, part)?;
    }
    Ok(are_right)
}

/// Whether what the row says holds.
fn holds(alloc: Global, row: &str) -> Result<bool, Fail> {
    let [held, failing, calls, wanted, left] = columns(row);
    let failing = numbers(alloc, failing)?;
    let mut disk = ImagesDisk::new(alloc, bytes_of(alloc, held)?, failing.as_slice())?;
    let said = answers(alloc, &mut disk, calls)?;
    Ok(said.as_str() == wanted && leaves_each(alloc, &disk, left)?)
}

#[test]
fn a_disk_keeps_every_image(rt: HostRuntime) -> Result<(), Fail> {
    for row in ROWS.lines() {
        assert!(&rt; holds(rt.alloc(), row)?, "{row}");
    }
    Ok(())
}
