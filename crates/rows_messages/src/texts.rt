//! The texts of the tests, and what is read of them.
use catalogue::{CatFault, Catalogue, read_catalogue};
use elements::{Decimal, Instant};
use std::alloc::{AllocError, Global};
use std::process::Abort;

/// 2008-09-20T00:00:00, in nanoseconds from 2000-01-01T12:00:00.
pub(crate) const START: i64 = 275_140_800_000_000_000;

/// What stands in a message before the name, the epoch and the number, and behind them.
const BEFORE_NAME: &str =
    "CCSDS_OMM_VERS = 2.0\nCOMMENT keywords in another order\nCREATION_DATE = 2008-09-21T00:00:00\nORIGINATOR =\nOBJECT_NAME = ";

const BEFORE_EPOCH: &str =
    "\nOBJECT_ID = 1998-067A\nCENTER_NAME = EARTH\nREF_FRAME = TEME\nTIME_SYSTEM = UTC\nMEAN_ELEMENT_THEORY = SGP4\nBSTAR = -.11606E-4 [1/ER]\nEPOCH = ";

const BEFORE_NUMBER: &str = "\nNORAD_CAT_ID = ";

const BEHIND: &str =
    "\nMEAN_MOTION = 15.72125391 [rev/day]\nECCENTRICITY = 0.0006703\nINCLINATION = 51.6416 [deg]\nRA_OF_ASC_NODE = 247.4627 [deg]\nARG_OF_PERICENTER = 130.5360 [deg]\nMEAN_ANOMALY = 325.0288 [deg]\n";

/// These pieces behind one another.
fn joined(alloc: Global, pieces: &[&str]) -> Result<Vec<u8>, AllocError> {
    let mut bytes = Vec::new(alloc);
    for piece in pieces {
        bytes.extend_from_slice(piece.as_bytes())?;
    }
    Ok(bytes)
}

/// A message of the station with this number, name and epoch, of 19 lines.
pub(crate) fn message(
    alloc: Global,
    number: &str,
    name: &str,
    epoch: &str,
) -> Result<Vec<u8>, AllocError> {
    joined(
        alloc,
        &[
            BEFORE_NAME,
            name,
            BEFORE_EPOCH,
            epoch,
            BEFORE_NUMBER,
            number,
            BEHIND,
        ],
    )
}

/// The catalogue of a file that is not too long, at a start in the years that have instants.
pub(crate) fn read(alloc: Global, bytes: &[u8], start: i64) -> Result<Catalogue, CatFault> {
    if bytes.len() > 16_777_216 || !Instant::is_in_years(start) {
        return Err(CatFault::OutOfMemory);
    }
    read_catalogue(alloc, bytes, Instant::from_nanos(start))
}

/// The only satellite of a file: its number, its epoch, and whether it has this name.
pub(crate) fn only(alloc: Global, bytes: &[u8], start: i64, name: &[u8]) -> (u32, i64, bool) {
    match read(alloc, bytes, start) {
        Ok(catalogue) => {
            if catalogue.len() == 1 {
                let entry = catalogue.entry(0);
                (
                    entry.elements.number(),
                    entry.elements.epoch().nanos(),
                    entry.name.bytes() == name,
                )
            } else {
                (0, 1, false)
            }
        }
        Err(_) => (0, 0, false),
    }
}

/// Whether the decimal has these digits and places.
pub(crate) fn has(found: Decimal, digits: i64, places: u8) -> bool {
    found.digits() == digits && found.places() == places
}

/// A file has this fault, or none.
pub(crate) fn expect(
    bytes: &[u8],
    fault: Option<CatFault>,
    about: &str,
    rt: &(impl Abort + AllocGlobal),
) {
    assert_eq!(rt; read(rt.alloc(), bytes, START).err(), fault, "{about}");
}
