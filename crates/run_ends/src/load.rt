//! The files of a command.
ghost use Rattle.std.specs.Prelude.{IfErr, IfOk, Ok};
ghost use Rattle.run_ends.specs.Causes.{IsCatalogueRefusal, IsStationRefusal};
ghost use Rattle.run_ends.specs.Counted.{AreLater, IsLoadCounted, IsSameShelf};
ghost use Rattle.run_ends.specs.Files.{IsAnswerOf, catalogue_at};
ghost use Rattle.station_file.specs.StationFile.{station_value};

use crate::refusal::Refusal;
use catalogue::{CatFault, Catalogue, read_catalogue};
use elements::Instant;
use outside_io::{LoadFault, Shelf};
use station_file::{StFault, Stations, read_stations};
use std::alloc::Global;

/// The most bytes of a file: 16 MiB.
const MOST_BYTES: u64 = 16_777_216;

/// The satellites of the file of this name, each by its element set that is nearest to an instant.
pub fn load_catalogue<S: Shelf>(
    alloc: Global,
    name: &[u8],
    instant: Instant,
    shelf: &mut S,
) -> Result<Catalogue, Refusal>
    requires { S.allows shelf.old name.now }
    ensures answer { IfOk result (λ sets. IsAnswerOf (catalogue_at instant) (S.held shelf.old name.now) (Ok sets)) }
    ensures cause { IfErr result (IsCatalogueRefusal (S.held shelf.old name.now) instant) }
    ensures counts { IsLoadCounted S.Shelf result shelf.old shelf.new }
    ensures later { AreLater S.Shelf shelf.old shelf.new }
    ensures same { IsSameShelf S.Shelf shelf.old shelf.new }
{
    match shelf.load(alloc, name, MOST_BYTES) {
        Ok(bytes) => match read_catalogue(alloc, bytes.as_slice(), instant) {
            Ok(catalogue) => Ok(catalogue),
            Err(CatFault::OutOfMemory) => Err(Refusal::OutOfMemory),
            Err(fault) => Err(Refusal::BadCatalogue(fault)),
        },
        Err(LoadFault::Failed) => Err(Refusal::Unread),
        Err(LoadFault::TooLong) => Err(Refusal::TooLong),
        Err(LoadFault::OutOfMemory) => Err(Refusal::OutOfMemory),
    }
}

/// The stations of the file of this name.
pub fn load_stations<S: Shelf>(
    alloc: Global,
    name: &[u8],
    shelf: &mut S,
) -> Result<Stations, Refusal>
    requires { S.allows shelf.old name.now }
    ensures answer { IfOk result (λ list. IsAnswerOf station_value (S.held shelf.old name.now) (Ok list)) }
    ensures cause { IfErr result (IsStationRefusal (S.held shelf.old name.now)) }
    ensures counts { IsLoadCounted S.Shelf result shelf.old shelf.new }
    ensures later { AreLater S.Shelf shelf.old shelf.new }
    ensures same { IsSameShelf S.Shelf shelf.old shelf.new }
{
    match shelf.load(alloc, name, MOST_BYTES) {
        Ok(bytes) => match read_stations(alloc, bytes.as_slice()) {
            Ok(stations) => Ok(stations),
            Err(StFault::OutOfMemory) => Err(Refusal::OutOfMemory),
            Err(fault) => Err(Refusal::BadStations(fault)),
        },
        Err(LoadFault::Failed) => Err(Refusal::Unread),
        Err(LoadFault::TooLong) => Err(Refusal::TooLong),
        Err(LoadFault::OutOfMemory) => Err(Refusal::OutOfMemory),
    }
}
