//! The generated satellites, with values of `tools/grid/sets.py`.
use elements::{Decimal, Elements};
use grid_command::{generated, hour, two_stations};
use plan_core::Planner;
use std::process::Abort;
use std::test::Fail;

/// The digits of a number and how many of them stand after the point.
type Written = (i64, u8);

/// For satellites k: k, the number, the epoch in nanoseconds from 2000-01-01T12:00:00; the mean motion, the eccentricity, the
/// inclination, the node, the argument of perigee, the mean anomaly and the drag term.
const ROWS: [(u32, u32, i64, [Written; 7]); 7] = [
    (
        0,
        90000,
        15422400000000000,
        [(15, 0), (0, 0), (0, 0), (0, 0), (0, 0), (0, 0), (1, 4)],
    ),
    (
        1,
        90001,
        15422400000000000,
        [
            (14999, 3),
            (1, 4),
            (7, 0),
            (37, 0),
            (91, 0),
            (137, 0),
            (1, 4),
        ],
    ),
    (
        18,
        90018,
        15422400000000000,
        [
            (14982, 3),
            (18, 4),
            (126, 0),
            (306, 0),
            (198, 0),
            (306, 0),
            (1, 4),
        ],
    ),
    (
        199,
        90199,
        15422400000000000,
        [
            (14801, 3),
            (199, 4),
            (161, 0),
            (163, 0),
            (109, 0),
            (263, 0),
            (1, 4),
        ],
    ),
    (
        200,
        90200,
        15422400000000000,
        [
            (148, 1),
            (0, 0),
            (168, 0),
            (200, 0),
            (200, 0),
            (40, 0),
            (1, 4),
        ],
    ),
    (
        201,
        90201,
        15422400000000000,
        [
            (14799, 3),
            (1, 4),
            (175, 0),
            (237, 0),
            (291, 0),
            (177, 0),
            (1, 4),
        ],
    ),
    (
        999,
        90999,
        15422400000000000,
        [
            (14001, 3),
            (199, 4),
            (129, 0),
            (243, 0),
            (189, 0),
            (63, 0),
            (1, 4),
        ],
    ),
];

/// The digits and the places of a decimal.
fn written(number: Decimal) -> Written {
    (number.digits(), number.places())
}

/// The set has this number, this epoch and these numbers.
fn expect(set: &Elements, number: u32, epoch: i64, numbers: [Written; 7], rt: &impl Abort) {
    let found = [
        written(set.motion()),
        written(set.ecc()),
        written(set.incl()),
        written(set.node()),
        written(set.argp()),
        written(set.anomaly()),
        written(set.bstar()),
    ];
    assert_eq!(rt; set.number(), number);
    assert_eq!(rt; set.epoch().nanos(), epoch, "the epoch of {number}");
    assert_eq!(rt; found, numbers, "the numbers of {number}");
}

#[test]
fn sets_are_made_by_their_formulas(rt: HostRuntime) -> Result<(), Fail> {
    let catalogue = generated(rt.alloc(), 1000)?;
    assert_eq!(rt; catalogue.len(), 1000);
    for (k, number, epoch, numbers) in &ROWS {
        if *k < catalogue.len() {
            let entry = catalogue.entry(*k);
            assert_eq!(rt; entry.name.bytes(), b"-".as_slice());
            expect(&entry.elements, *number, *epoch, *numbers, &rt);
        }
    }
    Ok(())
}

#[test]
fn no_set_is_refused(rt: HostRuntime) -> Result<(), Fail> {
    let alloc = rt.alloc();
    let catalogue = generated(alloc, 1000)?;
    let count = catalogue.len();
    let planner = Planner::make(alloc, catalogue, two_stations(alloc)?, hour(), 1)?;
    for k in 0..count {
        assert!(rt; planner.fate(k).is_none(), "the fate of {k}");
    }
    Ok(())
}
