//! Where a satellite of a catalogue is.
ghost use Rattle.std.specs.Prelude.{IfOk};
ghost use Rattle.catalogue.specs.Entries.{IsName};
ghost use Rattle.sat_locate.specs.Found.{IsAnswerFor, IsFoundFor, IsWellNamed, found_record, locate_record};

use crate::edge::edge_of;
use crate::found::{Found, LocAnswer};
use catalogue::Catalogue;
use elements::{Elements, Instant, OutOfMemory, Text};
use orbit_sight::{Craft, is_far_at};
use sgp4_shape::SatFault;
use std::alloc::Global;

/// Where the satellite with a catalogue number is at an instant, or why that is not known.
pub fn locate(
    alloc: Global,
    satellites: &Catalogue,
    number: u32,
    at: Instant,
) -> Result<LocAnswer, OutOfMemory>
    ensures answer { IfOk result (λ answer. IsAnswerFor satellites.now number at (locate_record answer)) }
    ensures name { IfOk result (λ answer. IsWellNamed (found_record answer.found)) }
{
    let found = match satellites.find(number) {
        Some(entry) => {
            let name = Text::copy(alloc, entry.name.bytes())?;
            found_of(&entry.elements, name, at)
        }
        None => Found::Missing,
    };
    Ok(LocAnswer { at, number, found })
}

/// What is found of a satellite with this element set and name.
fn found_of(set: &Elements, name: Text, at: Instant) -> Found
    requires { IsName name }
    ensures found { IsFoundFor set.now name at (found_record result) }
    ensures name { IsWellNamed (found_record result) }
{
    match Craft::make(set) {
        Ok(craft) => {
            if is_far_at(set, at) {
                return Found::Refused {
                    fault: SatFault::Far,
                    name,
                };
            }
            match craft.bounds_at(at) {
                Some(bounds) => Found::Inside {
                    name,
                    x: edge_of(bounds.x),
                    y: edge_of(bounds.y),
                    z: edge_of(bounds.z),
                },
                None => Found::Decayed { name },
            }
        }
        Err(fault) => Found::Refused { fault, name },
    }
}
