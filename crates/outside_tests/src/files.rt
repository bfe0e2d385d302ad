//! The system's files.
use crate::shown::add_faults;
use feed_pour::{Fetched, FileShelf, Opened, Shelf, fetch, write_all};
use spl_value::{Bytes, Items};
use std::alloc::{AllocError, Global};
use std::fs;
use std::rt::Files;
use test_texts::rows::{Untrue, compare, no_others};
use test_texts::text::Text;

// 200,000 bytes, in rows of ten.
fn rows(alloc: Global) -> Result<Vec<u8>, AllocError> {
    let mut rows = Vec::new(alloc);
    for k in 0..20000u32 {
        let digit = b'0' + (k % 10) as u8;
        rows.extend_from_slice(&[
            b'a', digit, b'b', digit, b'c', b'd', b'e', b'f', b'g', b'\n',
        ])?;
    }
    Ok(rows)
}

fn add_counts<R: Files + Drop>(text: &mut Text, shelf: &FileShelf<R>, name: &Bytes)
where
    R::File: Send,
{
    text.add(" ");
    add_faults(text, shelf.tallies(name));
    text.add("; ");
}

fn add_opened<R: Files + Drop>(text: &mut Text, shelf: &mut FileShelf<R>, name: &Bytes)
where
    R::File: Send,
{
    text.add(match shelf.open_in(name) {
        Opened::Ok(_) => "opened",
        Opened::Failed => "not opened",
        Opened::Memory => "no memory",
    });
    add_counts(text, shelf, name);
}

// Writes a file row by row, and finishes it.
fn is_written<H: Shelf>(shelf: &mut H, name: &Bytes, rows: &[u8]) -> bool {
    match shelf.create(name) {
        Opened::Ok(mut pour) => {
            let poured = rows.chunks(10).all(|row| write_all(&mut pour, row).is_ok());
            shelf.finish(name, pour).is_ok() && poured
        }
        Opened::Failed => false,
        Opened::Memory => false,
    }
}

fn add_written<R: Files + Drop>(
    text: &mut Text,
    shelf: &mut FileShelf<R>,
    name: &Bytes,
    rows: &[u8],
)
where
    R::File: Send,
{
    text.add(if is_written(shelf, name, rows) {
        "written"
    } else {
        "not written"
    });
    add_counts(text, shelf, name);
}

fn is_whole(read: Fetched, want: &[u8]) -> bool {
    match read {
        Fetched::Whole(bytes) => bytes.as_slice() == want,
        _other => false,
    }
}

// A name is opened, two bytes are written there, then these rows, and it is read.
fn add_file<R: Files + Drop>(
    alloc: Global,
    text: &mut Text,
    shelf: &mut FileShelf<R>,
    name: &[u8],
    rows: &[u8],
)
where
    R::File: Send,
{
    let Ok(name) = Items::from_slice(alloc, name) else {
        return text.add("no memory");
    };
    add_opened(text, shelf, &name);
    add_written(text, shelf, &name, b"1\n");
    add_written(text, shelf, &name, rows);
    let read = fetch(alloc, shelf, &name, 200000);
    text.add(if is_whole(read, rows) {
        "read"
    } else {
        "not read"
    });
    add_counts(text, shelf, &name);
}

// A path of no file, a name that isn't UTF-8, and the system's device that takes no byte: there two bytes
// wait in the buffer until the pour is finished, and more than it holds are written before.
const SEEN: &str = "\
not opened 1 0 0 0; written 1 0 0 0; written 1 0 0 0; read 1 0 0 0; \
not opened 1 0 0 0; not written 1 1 0 0; not written 1 2 0 0; not read 2 2 0 0; \
opened 0 0 0 0; not written 0 0 0 1; not written 0 0 0 2; not read 0 0 0 2; ";

// Whether files are as they are to be, where this is the path of no file.
fn expect_files<R: Files + Drop>(
    alloc: Global,
    shelf: &mut FileShelf<R>,
    path: &str,
) -> Result<(), Untrue>
where
    R::File: Send,
{
    let rows = rows(alloc)?;
    let rows = rows.as_slice();
    let mut seen = Text::new(alloc);
    add_file(alloc, &mut seen, shelf, path.as_bytes(), rows);
    add_file(alloc, &mut seen, shelf, &[0xC3u8, 0x28], rows);
    add_file(alloc, &mut seen, shelf, b"/dev/full", rows);
    let mut others = String::new(alloc);
    compare(&mut others, path, seen.finish()?.as_str(), SEEN)?;
    no_others(others)
}

#[test]
fn files_are_written_and_read_or_fail(rt: HostRuntime) -> Result<(), Untrue> {
    let path = "outside_tests_files_are_written_and_read.rows";
    let mut shelf = FileShelf::new(rt.clone()?, rt.alloc());
    let outcome = expect_files(rt.alloc(), &mut shelf, path);
    assert!(rt; fs::remove_file(&rt, path).is_ok());
    outcome
}
