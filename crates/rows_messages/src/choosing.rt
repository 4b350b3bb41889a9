//! Which of several sets of a satellite is taken.
use crate::texts::{START, message, read};
use catalogue::Catalogue;
use std::alloc::{AllocError, Global};
use std::process::Abort;
use std::test::Fail;

/// The epoch of the only satellite of a file, which has the number 25544.
fn epoch_in(alloc: Global, bytes: &[u8]) -> Option<i64> {
    match read(alloc, bytes, START) {
        Ok(catalogue) => match catalogue.find(25544) {
            Some(entry) => if catalogue.len() == 1 {
                Some(entry.elements.epoch().nanos())
            } else {
                None
            },
            None => None,
        },
        Err(_) => None,
    }
}

/// Of two messages with these epochs the one with this epoch is taken, at 2008-09-20T00:00:00.
fn pair(
    first: &str,
    second: &str,
    taken: i64,
    rt: &(impl Abort + AllocGlobal),
) -> Result<(), AllocError> {
    let mut bytes = message(rt.alloc(), "25544", "A", first)?;
    let other = message(rt.alloc(), "000025544", "B", second)?;
    bytes.extend_from_slice(other.as_slice())?;
    assert_eq!(rt;
        epoch_in(rt.alloc(), bytes.as_slice()),
        Some(taken),
        "{first}, {second}"
    );
    Ok(())
}

const SECOND: i64 = 1_000_000_000;

#[test]
fn the_nearest_is_taken_and_of_equal_ones_the_first(rt: HostRuntime) -> Result<(), Fail> {
    // One second before the start and one behind it: the first.
    pair(
        "2008-09-19T23:59:59",
        "2008-09-20T00:00:01",
        START - SECOND,
        &rt,
    )?;
    pair(
        "2008-09-20T00:00:01",
        "2008-09-19T23:59:59",
        START + SECOND,
        &rt,
    )?;
    // One is a second nearer.
    pair(
        "2008-09-19T23:59:58",
        "2008-09-20T00:00:01",
        START + SECOND,
        &rt,
    )?;
    pair(
        "2008-09-20T00:00:01",
        "2008-09-19T23:59:58",
        START + SECOND,
        &rt,
    )?;
    pair(
        "2008-09-19T23:59:59",
        "2008-09-20T00:00:02",
        START - SECOND,
        &rt,
    )?;
    // One is a nanosecond nearer.
    pair(
        "2008-09-20T00:00:00.000000002",
        "2008-09-19T23:59:59.999999999",
        START - 1,
        &rt,
    )?;
    pair(
        "2008-09-20T00:00:00",
        "2008-09-20T00:00:00.000000001",
        START,
        &rt,
    )?;
    // The two ends of the years.
    pair(
        "1957-01-01T00:00:00",
        "2056-12-31T23:59:59",
        1_798_804_799_000_000_000,
        &rt,
    )?;
    Ok(())
}

/// Adds a message to a file.
fn push(
    bytes: &mut Vec<u8>,
    number: &str,
    name: &str,
    epoch: &str,
    alloc: Global,
) -> Result<(), AllocError> {
    let text = message(alloc, number, name, epoch)?;
    bytes.extend_from_slice(text.as_slice())
}

/// At this place stands the satellite with this number and name.
fn satellite(catalogue: &Catalogue, place: u32, number: u32, name: &str, rt: &impl Abort) {
    let is_there = place < catalogue.len();
    assert!(rt; is_there, "satellite {place}");
    if is_there {
        let entry = catalogue.entry(place);
        assert_eq!(rt; entry.elements.number(), number, "satellite {place}");
        assert!(rt; entry.name.bytes() == name.as_bytes(), "satellite {place}");
    }
}

#[test]
fn satellites_stand_in_the_order_of_their_first_sets(rt: HostRuntime) -> Result<(), Fail> {
    let alloc = rt.alloc();
    let mut bytes = Vec::new(alloc);
    push(&mut bytes, "7", "A", "2008-09-21T00:00:00", alloc)?;
    push(&mut bytes, "3", "B", "2008-09-20T12:00:00", alloc)?;
    push(&mut bytes, "7", "C", "2008-09-19T06:00:00", alloc)?;
    push(&mut bytes, "9", "D", "2008-09-20T00:00:00", alloc)?;
    push(&mut bytes, "3", "E", "2008-09-20T13:00:00", alloc)?;
    push(&mut bytes, "7", "F", "2008-09-20T18:00:00", alloc)?;
    push(&mut bytes, "9", "G", "2008-09-20T00:00:00", alloc)?;
    push(&mut bytes, "7", "H", "2008-09-19T06:00:00", alloc)?;
    match read(alloc, bytes.as_slice(), START) {
        Ok(catalogue) => {
            assert_eq!(rt; catalogue.len(), 3, "three satellites");
            satellite(&catalogue, 0, 7, "C", &rt);
            satellite(&catalogue, 1, 3, "B", &rt);
            satellite(&catalogue, 2, 9, "D", &rt);
        }
        Err(fault) => assert!(rt; false, "{fault:?}"),
    }
    Ok(())
}
