//! The Sun at the horizon, at instants from outside: `tools/day/sunrises.py`, by right ascension, declination and hour angle in
//! floating point, has the sine of its elevation pass 0 at 2000-06-21T03:20:58.3159, 1975-03-03T11:26:00.3407,
//! 2035-11-07T06:55:11.2561 and 2056-09-30T07:43:15.3561. Each passage lies between two windows that are 2 ms apart.
use crate::calls::writes;
use std::test::Fail;

#[test]
fn the_sun_passes_the_horizon_within_two_milliseconds_of_the_instant(
    rt: HostRuntime,
) -> Result<(), Fail> {
    let rows: [(&str, &[u8]); 8] = [
        (
            "day --lat=48.1 --lon=11.3 --start=2000-06-21T03:20:58Z --end=2000-06-21T03:20:58.315Z --res=1",
            b"PASSDAY 1\nWINDOW 2000-06-21T03:20:58.0000Z 2000-06-21T03:20:58.3150Z 1\nN 2000-06-21T03:20:58.0000Z 2000-06-21T03:20:58.3150Z\nEND\n",
        ),
        (
            "day --lat=48.1 --lon=11.3 --start=2000-06-21T03:20:58.317Z --end=2000-06-21T03:20:59Z --res=1",
            b"PASSDAY 1\nWINDOW 2000-06-21T03:20:58.3170Z 2000-06-21T03:20:59.0000Z 1\nL 2000-06-21T03:20:58.3170Z 2000-06-21T03:20:59.0000Z\nEND\n",
        ),
        (
            "day --lat=-0.2 --lon=-78.5 --start=1975-03-03T11:26:00Z --end=1975-03-03T11:26:00.34Z --res=1",
            b"PASSDAY 1\nWINDOW 1975-03-03T11:26:00.0000Z 1975-03-03T11:26:00.3400Z 1\nN 1975-03-03T11:26:00.0000Z 1975-03-03T11:26:00.3400Z\nEND\n",
        ),
        (
            "day --lat=-0.2 --lon=-78.5 --start=1975-03-03T11:26:00.342Z --end=1975-03-03T11:26:01Z --res=1",
            b"PASSDAY 1\nWINDOW 1975-03-03T11:26:00.3420Z 1975-03-03T11:26:01.0000Z 1\nL 1975-03-03T11:26:00.3420Z 1975-03-03T11:26:01.0000Z\nEND\n",
        ),
        (
            "day --lat=-36.8 --lon=174.7 --start=2035-11-07T06:55:11Z --end=2035-11-07T06:55:11.255Z --res=1",
            b"PASSDAY 1\nWINDOW 2035-11-07T06:55:11.0000Z 2035-11-07T06:55:11.2550Z 1\nL 2035-11-07T06:55:11.0000Z 2035-11-07T06:55:11.2550Z\nEND\n",
        ),
        (
            "day --lat=-36.8 --lon=174.7 --start=2035-11-07T06:55:11.257Z --end=2035-11-07T06:55:12Z --res=1",
            b"PASSDAY 1\nWINDOW 2035-11-07T06:55:11.2570Z 2035-11-07T06:55:12.0000Z 1\nN 2035-11-07T06:55:11.2570Z 2035-11-07T06:55:12.0000Z\nEND\n",
        ),
        (
            "day --lat=64.1 --lon=-21.9 --start=2056-09-30T07:43:15Z --end=2056-09-30T07:43:15.355Z --res=1",
            b"PASSDAY 1\nWINDOW 2056-09-30T07:43:15.0000Z 2056-09-30T07:43:15.3550Z 1\nN 2056-09-30T07:43:15.0000Z 2056-09-30T07:43:15.3550Z\nEND\n",
        ),
        (
            "day --lat=64.1 --lon=-21.9 --start=2056-09-30T07:43:15.357Z --end=2056-09-30T07:43:16Z --res=1",
            b"PASSDAY 1\nWINDOW 2056-09-30T07:43:15.3570Z 2056-09-30T07:43:16.0000Z 1\nL 2056-09-30T07:43:15.3570Z 2056-09-30T07:43:16.0000Z\nEND\n",
        ),
    ];
    for (line, wanted) in rows {
        writes(line, wanted, 0, &rt)?;
    }
    Ok(())
}
