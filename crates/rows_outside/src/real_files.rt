use outside_io::{FileShelf, LoadFault, Shelf};
use std::fs;
use std::fs::Files;
use std::process::Abort;
use std::test::Fail;

/// A file of this length fits into this room, or does not.
fn loads<R: Abort + AllocGlobal + Files>(
    shelf: &mut FileShelf<&R>,
    length: usize,
    room: u64,
    fits: bool,
    rt: &R,
) -> Result<(), Fail> {
    let written = vec![in rt.alloc(); b'x'; length]?;
    fs::write(rt, "rows_outside.tmp", written.as_slice())?;
    match shelf.load(rt.alloc(), b"rows_outside.tmp", room) {
        Ok(bytes) => {
            assert!(rt; fits, "{length} bytes in {room}");
            assert_eq!(rt; bytes.as_slice(), written.as_slice());
        }
        Err(fault) => {
            assert!(rt; !fits, "{length} bytes in {room}");
            assert_eq!(rt; fault, LoadFault::TooLong);
        }
    }
    Ok(())
}

#[test]
fn files_are_read_up_to_the_room(rt: HostRuntime) -> Result<(), Fail> {
    let mut shelf = FileShelf::make(&rt);
    loads(&mut shelf, 0, 0, true, &rt)?;
    loads(&mut shelf, 1, 0, false, &rt)?;
    loads(&mut shelf, 0, 5, true, &rt)?;
    loads(&mut shelf, 5, 5, true, &rt)?;
    loads(&mut shelf, 6, 5, false, &rt)?;
    loads(&mut shelf, 4096, 4096, true, &rt)?;
    loads(&mut shelf, 4097, 4096, false, &rt)?;
    loads(&mut shelf, 4097, 4097, true, &rt)?;
    loads(&mut shelf, 8999, 9000, true, &rt)?;
    loads(&mut shelf, 9000, 9000, true, &rt)?;
    loads(&mut shelf, 9000, 8999, false, &rt)?;
    loads(&mut shelf, 9000, u64::MAX, true, &rt)?;
    fs::remove_file(&rt, "rows_outside.tmp")?;
    Ok(())
}

/// What has this name is no file.
fn fails<R: Abort + AllocGlobal + Files>(shelf: &mut FileShelf<&R>, name: &[u8], rt: &R) {
    match shelf.load(rt.alloc(), name, 100) {
        Ok(_) => assert!(rt; false, "{name:?}"),
        Err(fault) => assert_eq!(rt; fault, LoadFault::Failed, "{name:?}"),
    }
}

#[test]
fn what_is_no_file_fails(rt: HostRuntime) {
    // A directory, a missing name, no name, a name with a NUL, and one that is not UTF-8.
    let mut shelf = FileShelf::make(&rt);
    fails(&mut shelf, b".", &rt);
    fails(&mut shelf, b"rows_outside.missing", &rt);
    fails(&mut shelf, b"", &rt);
    fails(&mut shelf, b"a\0b", &rt);
    fails(&mut shelf, b"\xff", &rt);
}
