//! Files that a generator makes, and what a reader in Python makes of them: tools/catalogue/expected.py.
ghost use Rattle.std.specs.Prelude.{◌<◌};

use crate::expected::ANSWERS;
use crate::pieces::{add_lines, add_message};
use crate::texts::{START, read};
use catalogue::{CatFault, Catalogue, SetFault};
use omm_kvn::{Key, OmmFault};
use std::alloc::{AllocError, Global};
use std::test::Fail;
use tle_read::TleFault;

/// The next number of the generator, from 0 to below a count.
fn below(state: &mut u64, count: u64) -> u64
    requires { 0 < count }
{
    *state = state
        .wrapping_mul(6_364_136_223_846_793_005)
        .wrapping_add(1_442_695_040_888_963_407);
    (*state >> 33) % count
}

/// The next file of the generator: of messages, or of two-line sets.
fn made_up(alloc: Global, state: &mut u64, of_messages: bool) -> Result<Vec<u8>, AllocError> {
    let mut bytes = Vec::new(alloc);
    if of_messages && below(state, 4) > 0 {
        add_message(&mut bytes, 0)?;
    }
    for _ in 0..below(state, 7) {
        let piece = below(state, 16);
        if of_messages {
            add_message(&mut bytes, piece)?;
        } else {
            add_lines(&mut bytes, piece)?;
        }
    }
    Ok(bytes)
}

/// One number for what was so far, and a further value.
fn mixed(so_far: u64, value: u64) -> u64 {
    so_far.wrapping_mul(1_000_003).wrapping_add(value)
}

/// The place of a key in the table of the reader in Python.
fn place_of(key: Key) -> u64 {
    match key {
        Key::Version => 0,
        Key::Name => 1,
        Key::Theory => 2,
        Key::Epoch => 3,
        Key::Motion => 4,
        Key::Ecc => 5,
        Key::Incl => 6,
        Key::Node => 7,
        Key::Argp => 8,
        Key::Anomaly => 9,
        Key::Number => 10,
        Key::Bstar => 11,
        _ => 99,
    }
}

/// The fault of a set, as two numbers.
fn parts(fault: SetFault) -> (u64, u64) {
    match fault {
        SetFault::Tle(TleFault::Length { line, found }) => {
            (
                1,
                (line as u64).wrapping_mul(100).wrapping_add(found as u64),
            )
        }
        SetFault::Tle(TleFault::LineNumber { line }) => (2, line as u64),
        SetFault::Tle(TleFault::NumbersDiffer) => (3, 0),
        SetFault::Tle(_) => (4, 0),
        SetFault::Omm(OmmFault::Line { line }) => (11, line as u64),
        SetFault::Omm(OmmFault::Twice { key }) => (12, place_of(key)),
        SetFault::Omm(OmmFault::Unsupported { key }) => (13, place_of(key)),
        SetFault::Omm(OmmFault::Missing { key }) => (14, place_of(key)),
        SetFault::Omm(OmmFault::Value { key }) => (15, place_of(key)),
    }
}

/// One number for what was so far, and a fault.
fn with_fault(so_far: u64, fault: CatFault) -> u64 {
    match fault {
        CatFault::Empty => mixed(mixed(so_far, 2), 0),
        CatFault::Odd { line } => mixed(mixed(so_far, 3), line as u64),
        CatFault::BadSet { line, fault } => {
            let (what, detail) = parts(fault);
            mixed(mixed(mixed(mixed(so_far, 4), line as u64), what), detail)
        }
        CatFault::TooMany => mixed(so_far, 5),
        CatFault::OutOfMemory => mixed(so_far, 6),
    }
}

/// One number for what was so far, and a catalogue.
fn with_catalogue(so_far: u64, catalogue: &Catalogue) -> u64 {
    let mut answer = mixed(mixed(so_far, 1), catalogue.len() as u64);
    for k in 0..catalogue.len() {
        let entry = catalogue.entry(k);
        answer = mixed(answer, entry.elements.number() as u64);
        answer = mixed(answer, entry.elements.epoch().nanos().cast_unsigned());
        for byte in entry.name.bytes() {
            answer = mixed(answer, *byte as u64);
        }
    }
    answer
}

#[test]
fn made_up_files_are_read_as_in_python(rt: HostRuntime) -> Result<(), Fail> {
    let mut state = 20_080_920;
    for (group, wanted) in ANSWERS.iter().enumerate() {
        let mut answer = 0;
        for number in 0..100 {
            let bytes = made_up(rt.alloc(), &mut state, number % 2 == 1)?;
            answer = match read(rt.alloc(), bytes.as_slice(), START) {
                Ok(catalogue) => with_catalogue(answer, &catalogue),
                Err(fault) => with_fault(answer, fault),
            };
        }
        assert_eq!(rt; answer, *wanted, "group {group}");
    }
    Ok(())
}
