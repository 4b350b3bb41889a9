use outside_io::{
    Failed, LoadFault, MemoryShelf, MemorySink, NeverFailShelf, NeverFailSink, Shelf, Sink,
};
use std::process::Abort;
use std::test::Fail;

/// The put of a piece goes through or fails, and then this is written.
fn puts(sink: &mut MemorySink, piece: &[u8], goes_through: bool, written: &[u8], rt: &impl Abort) {
    assert_eq!(rt; sink.put(piece).is_ok(), goes_through);
    assert_eq!(rt; sink.written(), written);
}

#[test]
fn a_put_fails_where_it_is_listed_or_too_long(rt: HostRuntime) -> Result<(), Fail> {
    let mut sink = MemorySink::make(rt.alloc(), 12)?;
    sink.fail_at(2)?;
    sink.fail_at(4)?;
    puts(&mut sink, b"abc", true, b"abc", &rt);
    puts(&mut sink, b"defgh", false, b"abcde", &rt);
    puts(&mut sink, b"", true, b"abcde", &rt);
    puts(&mut sink, b"x", false, b"abcde", &rt);
    puts(&mut sink, b"12345678", false, b"abcde1234", &rt);
    puts(&mut sink, b"123456789", false, b"abcde1234123", &rt);
    puts(&mut sink, b"", true, b"abcde1234123", &rt);
    puts(&mut sink, b"z", false, b"abcde1234123", &rt);
    Ok(())
}

#[test]
fn a_piece_may_fill_the_room(rt: HostRuntime) -> Result<(), Fail> {
    let mut sink = MemorySink::make(rt.alloc(), 3)?;
    assert_eq!(rt; sink.put(b"abc"), Ok(()));
    assert_eq!(rt; sink.put(b"d"), Err(Failed));
    assert_eq!(rt; sink.written(), b"abc".as_slice());
    let mut none = MemorySink::make(rt.alloc(), 0)?;
    assert_eq!(rt; none.put(b""), Ok(()));
    assert_eq!(rt; none.put(b"ab"), Err(Failed));
    assert_eq!(rt; none.written(), b"".as_slice());
    Ok(())
}

#[test]
fn a_room_past_all_memory_is_refused(rt: HostRuntime) -> Result<(), Fail> {
    assert!(rt; MemorySink::make(rt.alloc(), u64::MAX).is_err());
    Ok(())
}

/// The load of a name gives these bytes.
fn gives(
    shelf: &mut MemoryShelf,
    name: &[u8],
    room: u64,
    wanted: &[u8],
    rt: &(impl Abort + AllocGlobal),
) {
    match shelf.load(rt.alloc(), name, room) {
        Ok(bytes) => assert_eq!(rt; bytes.as_slice(), wanted, "room {room}"),
        Err(fault) => assert!(rt; false, "room {room}: {fault:?}"),
    }
}

/// The load of a name has this fault.
fn refuses(
    shelf: &mut MemoryShelf,
    name: &[u8],
    room: u64,
    wanted: LoadFault,
    rt: &(impl Abort + AllocGlobal),
) {
    match shelf.load(rt.alloc(), name, room) {
        Ok(_) => assert!(rt; false, "room {room}"),
        Err(fault) => assert_eq!(rt; fault, wanted, "room {room}"),
    }
}

#[test]
fn a_load_gives_the_bytes_or_its_fault(rt: HostRuntime) -> Result<(), Fail> {
    let mut shelf = MemoryShelf::make(rt.alloc())?;
    shelf.add(b"a", b"old bytes")?;
    shelf.add(b"ab", b"")?;
    shelf.add(b"a", b"hello")?;
    shelf.fail_at(3)?;
    gives(&mut shelf, b"a", 5, b"hello", &rt);
    refuses(&mut shelf, b"a", 4, LoadFault::TooLong, &rt);
    refuses(&mut shelf, b"a", 5, LoadFault::Failed, &rt);
    gives(&mut shelf, b"a", u64::MAX, b"hello", &rt);
    gives(&mut shelf, b"ab", 0, b"", &rt);
    refuses(&mut shelf, b"abc", 5, LoadFault::Failed, &rt);
    refuses(&mut shelf, b"", 5, LoadFault::Failed, &rt);
    refuses(&mut shelf, b"a", 0, LoadFault::TooLong, &rt);
    Ok(())
}

#[test]
fn what_never_fails_goes_on(rt: HostRuntime) -> Result<(), Fail> {
    let alloc = rt.alloc();
    let mut shelf = NeverFailShelf::make(alloc)?;
    shelf.add(b"a", b"hello")?;
    assert_eq!(rt; shelf.load(alloc, b"a", 5)?.as_slice(), b"hello".as_slice());
    assert_eq!(rt;
        shelf.load(alloc, b"missing", 0)?.as_slice(),
        b"".as_slice()
    );
    assert!(rt; shelf.load(alloc, b"a", 4).is_err());
    shelf.add(b"a", b"ho")?;
    assert_eq!(rt; shelf.load(alloc, b"a", 4)?.as_slice(), b"ho".as_slice());
    let mut sink = NeverFailSink::make();
    assert_eq!(rt; sink.put(b"hello"), Ok(()));
    assert_eq!(rt; sink.put(b""), Ok(()));
    Ok(())
}
