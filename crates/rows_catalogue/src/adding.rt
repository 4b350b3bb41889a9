//! Satellites are added one for each number.
use crate::texts::{STATION1, STATION2, VANGUARD1, VANGUARD2};
use catalogue::Catalogue;
use elements::{Elements, Text};
use std::alloc::{AllocError, Global};
use std::process::Abort;
use std::test::Fail;
use tle_read::read_pair;

/// Adds a satellite without a name.
#[tactic(auto, using(catalogue::proofs::NameLemmas::dash_is_name))]
fn add(alloc: Global, catalogue: &mut Catalogue, elements: Elements) -> Result<bool, AllocError> {
    let name = Text::copy(alloc, b"-".as_slice())?;
    catalogue.add(elements, name)
}

/// The satellite of two lines is added, or it was there.
fn adds(
    catalogue: &mut Catalogue,
    line1: &[u8; 69],
    line2: &[u8; 69],
    added: bool,
    rt: &(impl Abort + AllocGlobal),
) -> Result<(), AllocError> {
    match read_pair(line1, line2) {
        Ok(elements) => {
            let was = add(rt.alloc(), catalogue, elements)?;
            assert!(rt; was == added, "a number is added once");
        }
        Err(_) => assert!(rt; false, "the lines are a set"),
    }
    Ok(())
}

#[test]
fn each_number_is_added_once(rt: HostRuntime) -> Result<(), Fail> {
    let mut catalogue = Catalogue::empty(rt.alloc());
    assert_eq!(rt; catalogue.len(), 0, "no satellite is there at first");
    adds(&mut catalogue, STATION1, STATION2, true, &rt)?;
    adds(&mut catalogue, VANGUARD1, VANGUARD2, true, &rt)?;
    adds(&mut catalogue, STATION1, STATION2, false, &rt)?;
    assert_eq!(rt; catalogue.len(), 2, "two satellites are there");
    if catalogue.len() == 2 {
        assert_eq!(rt; catalogue.entry(0).elements.number(), 25544, "the first");
        assert_eq!(rt; catalogue.entry(1).elements.number(), 5, "the second");
        assert!(rt;
            catalogue.entry(1).name.bytes() == b"-".as_slice(),
            "a name"
        );
    }
    Ok(())
}
