//! The lines of files that are no station file.
use pass_text::station_fault_line;
use station_file::{StFault, StKey};

#[test]
fn files_that_are_no_station_file_are_refused(rt: HostRuntime) {
    let rows: [(StFault, &[u8]); 16] = [
        (StFault::NotUtf8, b"error stations notutf8\n"),
        (StFault::NotToml, b"error stations nottoml\n"),
        (StFault::Empty, b"error stations empty\n"),
        (StFault::TooMany, b"error stations toomany\n"),
        (
            StFault::Shape {
                index: 0,
                key: StKey::Version,
            },
            b"error stations shape 0 version\n",
        ),
        (
            StFault::Shape {
                index: 1,
                key: StKey::Lat,
            },
            b"error stations shape 1 lat\n",
        ),
        (
            StFault::Shape {
                index: 0,
                key: StKey::Other,
            },
            b"error stations shape 0 other\n",
        ),
        (
            StFault::Shape {
                index: 64,
                key: StKey::Station,
            },
            b"error stations shape 64 station\n",
        ),
        (
            StFault::Shape {
                index: 2,
                key: StKey::Borders,
            },
            b"error stations shape 2 borders\n",
        ),
        (
            StFault::Range {
                index: 1,
                key: StKey::Lat,
            },
            b"error stations range 1 lat\n",
        ),
        (
            StFault::Range {
                index: 3,
                key: StKey::Height,
            },
            b"error stations range 3 height\n",
        ),
        (
            StFault::Range {
                index: 3,
                key: StKey::Masks,
            },
            b"error stations range 3 masks\n",
        ),
        (StFault::Twice { index: 2 }, b"error stations twice 2\n"),
        (StFault::Mask { index: 1 }, b"error stations mask 1\n"),
        (
            StFault::Mask {
                index: 4_294_967_295,
            },
            b"error stations mask 4294967295\n",
        ),
        (StFault::OutOfMemory, b"error memory\n"),
    ];
    for (fault, printed) in &rows {
        let line = station_fault_line(*fault);
        assert!(rt; line.bytes() == *printed, "{fault:?}");
    }
}
