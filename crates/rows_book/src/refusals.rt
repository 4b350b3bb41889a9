//! Why nothing is booked.
use crate::calls::writes;
use crate::given::{DEEP, POLE, POLE_FAR};
use std::test::Fail;

#[test]
fn the_first_fault_of_the_files_is_the_one_line(rt: HostRuntime) -> Result<(), Fail> {
    let rows: [(&[u8], &[u8], &[u8], u8); 5] = [
        (b"", POLE, b"error catalogue empty\n", 4),
        (b"\n \n", b"\xff", b"error catalogue empty\n", 4),
        (DEEP, b"\xff", b"error stations notutf8\n", 5),
        (DEEP, b"", b"error stations shape 0 version\n", 5),
        (DEEP, POLE_FAR, b"error stations range 1 lat\n", 5),
    ];
    for (catalogue, stations, wanted, status) in &rows {
        writes(catalogue, stations, 0, 0, wanted, *status, &rt)?;
    }
    Ok(())
}

#[test]
fn a_load_that_fails_is_told(rt: HostRuntime) -> Result<(), Fail> {
    writes(DEEP, POLE, 1, 0, b"error read\n", 6, &rt)?;
    writes(DEEP, POLE, 2, 0, b"error read\n", 6, &rt)?;
    writes(DEEP, POLE, 2, 1, b"error", 6, &rt)?;
    // A catalogue that is none is refused before the stations are loaded.
    writes(b"", POLE, 2, 0, b"error catalogue empty\n", 4, &rt)?;
    Ok(())
}
