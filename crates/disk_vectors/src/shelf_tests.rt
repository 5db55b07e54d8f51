//! Tests of a `FileShelf` over real files: whole files, and each fault.
use nc_outside::Shelf;
use real_outside::FileShelf;
use std::alloc::{AllocError, Global};
use std::fs;
use std::rt::Files;
use std::test::Fail;

/// The folder that the test makes and removes.
const FOLDER: &str = "file_shelf_test";

/// The file in it, with the text `M30` and a line end.
const FILE: &str = "file_shelf_test/a.nc";

/// A row: a name, the most bytes, the answer, the text after a `%` that was there before, and the
/// faults so far.
const ROWS: &str = "\
file_shelf_test/a.nc|4|Ok(())|%M30~|0
file_shelf_test/a.nc|18446744073709551615|Ok(())|%M30~|0
file_shelf_test/a.nc|3|Err(TooLong)|%|0
file_shelf_test/b.nc|4|Err(Absent)|%|0
file_shelf_test/a.nc/b.nc|4|Err(Absent)|%|0
|4|Err(Absent)|%|0
file_shelf_test|4|Err(Failed)|%|1
file_shelf_test/a.nc|4|Ok(())|%M30~|1";

/// Writes a text with `~` for the end of a line.
fn put_text(out: &mut String, text: &[u8]) -> Result<(), AllocError> {
    for byte in text {
        out.push(if *byte == b'\n' {
            '~'
        } else {
            char::from(*byte)
        })?;
    }
    Ok(())
}

/// What a shelf answers to a name and a number of bytes, what then stands after the `%`, and its
/// faults.
fn answer<R: Files>(
    alloc: Global,
    shelf: &mut FileShelf<'_, R>,
    name: &str,
    max: usize,
) -> Result<String, AllocError> {
    let mut into = b"%".to_vec(alloc)?;
    let outcome = shelf.fetch(name, &mut into, max);
    let mut out = format!(in alloc; "{outcome:?}|")?;
    put_text(&mut out, into.as_slice())?;
    write!(&mut out, "|{}", shelf.faults())?;
    Ok(out)
}

/// Whether a row holds.
fn holds<R: Files>(
    alloc: Global,
    shelf: &mut FileShelf<'_, R>,
    row: &str,
) -> Result<bool, AllocError> {
    let (name, rest) = row.split_once('|').unwrap_or((row, ""));
    let (max, wanted) = rest.split_once('|').unwrap_or((rest, ""));
    let got = answer(alloc, shelf, name, max.parse::<usize>().unwrap_or(0))?;
    Ok(got.as_str() == wanted)
}

#[test]
fn files_are_read_whole_and_a_folder_is_a_fault(rt: HostRuntime) -> Result<(), Fail> {
    let _ = fs::create_dir(&rt, FOLDER);
    fs::write(&rt, FILE, "M30\n")?;
    let mut shelf = FileShelf::new(&rt);
    for row in ROWS.lines() {
        assert!(rt; holds(rt.alloc(), &mut shelf, row)?, "{row}");
    }
    fs::remove_file(&rt, FILE)?;
    fs::remove_dir(&rt, FOLDER)?;
    Ok(())
}
