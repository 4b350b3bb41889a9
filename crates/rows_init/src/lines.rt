//! Sets that two lines write, and the faults for which they are refused.
use enc_plain::Plain;
use sgp4_init::prepare;
use sgp4_shape::SatFault;
use tle_read::read_pair;

/// Vanguard 1 and the International Space Station, as published.
const A1: &[u8] = b"1 00005U 58002B   00179.78495062  .00000023  00000-0  28098-4 0  4753";

const A2: &[u8] = b"2 00005  34.2682 348.7242 1859667 331.7664  19.3264 10.82419157413667";

const B1: &[u8] = b"1 25544U 98067A   08264.51782528 -.00002182  00000-0 -11606-4 0  2927";

const B2: &[u8] = b"2 25544  51.6416 247.4627 0006703 130.5360 325.0288 15.72125391563537";

/// A set that is made up, with other drag terms and with other second lines.
const C1: &[u8] = b"1 90001U 00001A   00179.00000000  .00000000  00000-0  00000-0 0    12";

const DRAGGED: &[u8] = b"1 90001U 00001A   00179.00000000  .00000000  00000-0  10001-2 0    16";

const C2: &[u8] = b"2 90001   0.0000   0.0000 0010000   0.0000   0.0000 15.00000000    10";

const SLOW: &[u8] = b"2 90001   0.0000   0.0000 0010000   0.0000   0.0000  6.00000000    10";

const FAST: &[u8] = b"2 90001   0.0000   0.0000 0010000   0.0000   0.0000 17.00000000    12";

/// With a perigee of 220.0000001 km, by an independent program: refused for its height before its form is asked for.
const AT_THE_CHANGE: &[u8] =
    b"2 90001   0.0000   0.0000 0010000   0.0000   0.0000 16.19864150    15";

const ECCENTRIC: &[u8] = b"2 90001   0.0000   0.0000 2000001   0.0000   0.0000 15.00000000    12";

const INCLINED: &[u8] = b"2 90001 175.0001   0.0000 0010000   0.0000   0.0000 15.00000000    14";

#[test]
fn sets_of_two_lines_are_taken_or_refused(rt: HostRuntime) {
    let rows: [(&[u8], &[u8], Option<SatFault>); 9] = [
        (A1, A2, None),
        (B1, B2, None),
        (C1, C2, None),
        (C1, SLOW, Some(SatFault::Deep)),
        (C1, FAST, Some(SatFault::Low)),
        (C1, AT_THE_CHANGE, Some(SatFault::Low)),
        (C1, ECCENTRIC, Some(SatFault::Eccentric)),
        (C1, INCLINED, Some(SatFault::Inclined)),
        (DRAGGED, C2, Some(SatFault::Drag)),
    ];
    for (line1, line2, fault) in rows {
        match read_pair(line1, line2) {
            Ok(set) => assert!(rt;
                prepare::<Plain>(&set).err() == fault,
                "the fault is the expected one"
            ),
            Err(_) => assert!(rt; false, "the lines are read"),
        }
    }
}
