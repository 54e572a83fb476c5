// The shelf over real files, in the folder that the tests run in.
use disk_shelf::DiskShelf;
use shelf::{FetchError, Shelf, ShelfError, fetch};
use std::alloc::Global;
use std::marker::Brand;
use std::os::unix::fs::symlink;
use std::rt::{Clock, Files};
use std::test::Fail;
use std::{fs, io};

const NAME: &str = "worked_rows.tmp";

const LONG_NAME: &str = "worked_rows_long.tmp";

const LONG: usize = 150_000;

const READ_NAME: &str = "worked_rows_read.tmp";

// Other names of that file.
const OTHER_NAMES: [&str; 3] = [
    "./worked_rows_read.tmp",
    "worked_rows_hard.tmp",
    "worked_rows_soft.tmp",
];

// What is to be taken away again.
const WRITTEN_NAMES: [&str; 3] = [READ_NAME, "worked_rows_hard.tmp", "worked_rows_soft.tmp"];

const BEGUN_NAME: &str = "worked_rows_begun.tmp";

// Writes a file anew, in two pieces.
fn write<S: Shelf>(
    shelf: &mut S,
    name: &str,
    first: &[u8],
    second: &[u8],
) -> Result<(), ShelfError> {
    shelf.begin(name)?;
    shelf.append(name, first)?;
    shelf.append(name, second)
}

// Whether a file holds these bytes.
fn holds<S: Shelf>(
    alloc: Global,
    shelf: &mut S,
    name: &str,
    bytes: &[u8],
) -> Result<bool, FetchError> {
    Ok(fetch(alloc, shelf, name, 1 << 20)?.as_slice() == bytes)
}

// Writes a file over an older content, in two pieces, and answers whether it is held whole.
fn is_written<S: Shelf>(alloc: Global, shelf: &mut S, content: &[u8]) -> Result<bool, Fail> {
    let (first, second) = content.split_at(content.len() / 2);
    write(shelf, NAME, b"older", b"")?;
    write(shelf, NAME, first, second)?;
    Ok(holds(alloc, shelf, NAME, content)?)
}

// Whether a file can't be read.
fn is_unread<S: Shelf>(alloc: Global, shelf: &mut S, name: &str) -> bool {
    holds(alloc, shelf, name, b"") == Err(FetchError::ReadFault)
}

#[test]
fn a_real_file_is_written_and_read(rt: HostRuntime) -> Result<(), Fail> {
    let is_held = is_written(
        rt.alloc(),
        &mut DiskShelf::<_, Brand>::new(&rt),
        b"two pieces",
    )?;
    fs::remove_file(&rt, NAME)?;
    assert!(rt; is_held);
    // in a call of its own, since a file that is open stays
    assert!(rt; is_unread(rt.alloc(), &mut DiskShelf::<_, Brand>::new(&rt), NAME));
    Ok(())
}

// Writes a file, and reads it.
fn fetch_written<S: Shelf>(alloc: Global, shelf: &mut S, content: &[u8]) -> Result<Vec<u8>, Fail> {
    write(shelf, LONG_NAME, content, b"end")?;
    Ok(fetch(alloc, shelf, LONG_NAME, 1 << 20)?)
}

// A file of more than two pieces.
#[test]
fn a_long_file_is_written_and_read_whole(rt: HostRuntime) -> Result<(), Fail> {
    let content = Vec::from_elem(rt.alloc(), b'x', LONG)?;
    let fetched = fetch_written(rt.alloc(), &mut DiskShelf::<_, Brand>::new(&rt), &content)?;
    fs::remove_file(&rt, LONG_NAME)?;
    assert_eq!(rt; fetched.len(), LONG + 3);
    assert!(rt; fetched.ends_with(b"xend"));
    Ok(())
}

// A folder can be opened, and its first read fails.
#[test]
fn a_folder_is_a_read_fault(rt: HostRuntime) {
    assert!(rt; is_unread(rt.alloc(), &mut DiskShelf::<_, Brand>::new(&rt), "."));
}

// Whether a file can't be begun under a name.
fn is_refused<S: Shelf>(shelf: &mut S, name: &str) -> bool {
    shelf.begin(name) == Err(ShelfError::Failed)
}

// Whether a file that was read is begun under none of its other names, and stays as it is.
fn is_kept<S: Shelf>(alloc: Global, shelf: &mut S) -> Result<bool, FetchError> {
    let mut is_kept = holds(alloc, shelf, READ_NAME, b"kept")?;
    for name in OTHER_NAMES {
        if !is_refused(shelf, name) {
            is_kept = false;
        }
    }
    Ok(is_kept && holds(alloc, shelf, READ_NAME, b"kept")?)
}

fn make_names<R: Files>(rt: &R) -> io::Result<()> {
    fs::write(rt, READ_NAME, "kept")?;
    fs::hard_link(rt, READ_NAME, "worked_rows_hard.tmp")?;
    symlink(rt, READ_NAME, "worked_rows_soft.tmp")
}

fn remove_names<R: Files>(rt: &R) -> io::Result<()> {
    for name in WRITTEN_NAMES {
        fs::remove_file(rt, name)?;
    }
    Ok(())
}

#[test]
fn a_file_that_was_read_is_not_begun_under_another_name(rt: HostRuntime) -> Result<(), Fail> {
    make_names(&rt)?;
    let is_kept = is_kept(rt.alloc(), &mut DiskShelf::<_, Brand>::new(&rt))?;
    remove_names(&rt)?;
    assert!(rt; is_kept);
    Ok(())
}

// Whether a file that was begun is begun again under its own name alone.
fn is_begun_by_its_name<S: Shelf>(shelf: &mut S) -> Result<bool, ShelfError> {
    shelf.begin(BEGUN_NAME)?;
    let is_refused = is_refused(shelf, "./worked_rows_begun.tmp");
    shelf.begin(BEGUN_NAME)?;
    Ok(is_refused)
}

#[test]
fn a_file_that_was_begun_is_not_begun_under_another_name(rt: HostRuntime) -> Result<(), Fail> {
    let is_begun = is_begun_by_its_name(&mut DiskShelf::<_, Brand>::new(&rt))?;
    fs::remove_file(&rt, BEGUN_NAME)?;
    assert!(rt; is_begun);
    Ok(())
}

// Whether a device is read as empty, and begun and written under a second name.
fn is_known_by_no_name<R: Files + Print + Eprint + Clock + AllocGlobal>(
    alloc: Global,
    shelf: &mut DiskShelf<'_, R, Brand>,
) -> Result<bool, Fail> {
    let is_empty = holds(alloc, shelf, "/dev/null", b"")?;
    shelf.begin("/dev/./null")?;
    shelf.append("/dev/./null", b"lost")?;
    Ok(is_empty)
}

// Nothing is lost in a device.
#[test]
fn a_device_may_have_many_names(rt: HostRuntime) -> Result<(), Fail> {
    assert!(rt; is_known_by_no_name(rt.alloc(), &mut DiskShelf::<_, Brand>::new(&rt))?);
    Ok(())
}
