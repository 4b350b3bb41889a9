//! The lines that say whether satellites are taken.
use pass_text::sat_line;
use sgp4_shape::SatFault;

#[test]
fn satellites_are_printed_with_their_fates(rt: HostRuntime) {
    let rows: [(u32, Option<SatFault>, &[u8], &[u8]); 10] = [
        (25544, None, b"ISS (ZARYA)", b"SAT 25544 OK ISS (ZARYA)\n"),
        (5, None, b"-", b"SAT 5 OK -\n"),
        (
            90001,
            Some(SatFault::Eccentric),
            b"-",
            b"SAT 90001 ECCENTRIC -\n",
        ),
        (
            90001,
            Some(SatFault::Inclined),
            b"-",
            b"SAT 90001 INCLINED -\n",
        ),
        (90001, Some(SatFault::Drag), b"-", b"SAT 90001 DRAG -\n"),
        (90001, Some(SatFault::Deep), b"-", b"SAT 90001 DEEP -\n"),
        (90001, Some(SatFault::Low), b"-", b"SAT 90001 LOW -\n"),
        (90001, Some(SatFault::Edge), b"-", b"SAT 90001 EDGE -\n"),
        (90001, Some(SatFault::Far), b"-", b"SAT 90001 FAR -\n"),
        (
            4_294_967_295,
            Some(SatFault::Far),
            b"A B",
            b"SAT 4294967295 FAR A B\n",
        ),
    ];
    for (number, fate, name, printed) in &rows {
        if name.len() <= 64 {
            let line = sat_line(*number, *fate, name);
            assert!(rt; line.bytes() == *printed, "the printed line");
        } else {
            assert!(rt; false, "a name of at most 64 bytes");
        }
    }
}
