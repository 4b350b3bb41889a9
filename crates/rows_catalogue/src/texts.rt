//! The lines of the tests, and files of them.
use catalogue::{CatFault, Catalogue, read_catalogue};
use elements::{Decimal, Instant};
use std::alloc::{AllocError, Global};
use std::process::Abort;

/// Vanguard 1, one of the published test cases of the orbit model.
pub(crate) const VANGUARD1: &[u8; 69] =
    b"1 00005U 58002B   00179.78495062  .00000023  00000-0  28098-4 0  4753";

pub(crate) const VANGUARD2: &[u8; 69] =
    b"2 00005  34.2682 348.7242 1859667 331.7664  19.3264 10.82419157413667";

/// The International Space Station on 20 September 2008.
pub(crate) const STATION1: &[u8; 69] =
    b"1 25544U 98067A   08264.51782528 -.00002182  00000-0 -11606-4 0  2927";

pub(crate) const STATION2: &[u8; 69] =
    b"2 25544  51.6416 247.4627 0006703 130.5360 325.0288 15.72125391563537";

/// 2008-09-20T00:00:00, in nanoseconds from 2000-01-01T12:00:00.
pub(crate) const START: i64 = 275_140_800_000_000_000;

/// These pieces behind one another, each with a line feed behind it.
pub(crate) fn lines(alloc: Global, pieces: &[&[u8]]) -> Result<Vec<u8>, AllocError> {
    let mut bytes = Vec::new(alloc);
    for piece in pieces {
        bytes.extend_from_slice(piece)?;
        bytes.push(b'\n')?;
    }
    Ok(bytes)
}

/// The catalogue of a file that is not too long, at a start in the years that have instants.
pub(crate) fn read(alloc: Global, bytes: &[u8], start: i64) -> Result<Catalogue, CatFault> {
    if bytes.len() > 16_777_216 || !Instant::is_in_years(start) {
        return Err(CatFault::OutOfMemory);
    }
    read_catalogue(alloc, bytes, Instant::from_nanos(start))
}

/// The only satellite of a file: its number, its epoch, and whether it has this name.
pub(crate) fn only(alloc: Global, bytes: &[u8], start: i64, name: &[u8]) -> (u32, i64, bool) {
    match read(alloc, bytes, start) {
        Ok(catalogue) => {
            if catalogue.len() == 1 {
                let entry = catalogue.entry(0);
                (
                    entry.elements.number(),
                    entry.elements.epoch().nanos(),
                    entry.name.bytes() == name,
                )
            } else {
                (0, 1, false)
            }
        }
        Err(_) => (0, 0, false),
    }
}

/// Whether the decimal has these digits and places.
pub(crate) fn has(found: Decimal, digits: i64, places: u8) -> bool {
    found.digits() == digits && found.places() == places
}

/// A file has this fault, or none.
pub(crate) fn expect(
    bytes: &[u8],
    fault: Option<CatFault>,
    about: &str,
    rt: &(impl Abort + AllocGlobal),
) {
    assert_eq!(rt; read(rt.alloc(), bytes, START).err(), fault, "{about}");
}
