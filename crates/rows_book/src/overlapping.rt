//! Satellites that a station sees at one time. The values and prices are those of tools/book/expected.py.
use crate::calls::{are_certified, run_over};
use crate::given::{POLE_OPEN, THREE, TWO};
use std::test::Fail;

/// With one antenna either of two contacts has it, and one price certifies the value: a satellite's number, and the whole text.
const ONE_ANTENNA: [&[u8]; 2] = [
    b"PASSBOOK 1\nWINDOW 2000-06-27T00:00:00.0000Z 2000-06-27T01:00:00.0000Z 1\nSTATION 1 Pole\nSAT 90001 OK -\nSAT 90002 OK -\nBOOK 1 2 36000000\nUSE 2000-06-27T00:00:00.0000Z 2000-06-27T01:00:00.0000Z 90001 1\nPRICE 2000-06-27T00:00:00.0000Z 2000-06-27T01:00:00.0000Z 36000000\nEND\n",
    b"PASSBOOK 1\nWINDOW 2000-06-27T00:00:00.0000Z 2000-06-27T01:00:00.0000Z 1\nSTATION 1 Pole\nSAT 90001 OK -\nSAT 90002 OK -\nBOOK 1 2 36000000\nUSE 2000-06-27T00:00:00.0000Z 2000-06-27T01:00:00.0000Z 90002 1\nPRICE 2000-06-27T00:00:00.0000Z 2000-06-27T01:00:00.0000Z 36000000\nEND\n",
];

/// With two antennas both contacts have one.
const TWO_ANTENNAS: [&[u8]; 2] = [
    b"PASSBOOK 1\nWINDOW 2000-06-27T00:00:00.0000Z 2000-06-27T01:00:00.0000Z 1\nSTATION 1 Pole\nSAT 90001 OK -\nSAT 90002 OK -\nBOOK 1 2 72000000\nUSE 2000-06-27T00:00:00.0000Z 2000-06-27T01:00:00.0000Z 90001 1\nUSE 2000-06-27T00:00:00.0000Z 2000-06-27T01:00:00.0000Z 90002 2\n",
    b"PASSBOOK 1\nWINDOW 2000-06-27T00:00:00.0000Z 2000-06-27T01:00:00.0000Z 1\nSTATION 1 Pole\nSAT 90001 OK -\nSAT 90002 OK -\nBOOK 1 2 72000000\nUSE 2000-06-27T00:00:00.0000Z 2000-06-27T01:00:00.0000Z 90001 2\nUSE 2000-06-27T00:00:00.0000Z 2000-06-27T01:00:00.0000Z 90002 1\n",
];

#[test]
fn one_antenna_serves_one_of_two_contacts(rt: HostRuntime) -> Result<(), Fail> {
    let (out, ending) = run_over(rt.alloc(), TWO, POLE_OPEN, 1, 0, 0)?;
    let found = out.written();
    assert!(rt;
        found == ONE_ANTENNA[0] || found == ONE_ANTENNA[1],
        "the text"
    );
    assert!(rt;
        are_certified(rt.alloc(), &ending, 1, 1)?,
        "the certificate"
    );
    Ok(())
}

#[test]
fn two_antennas_serve_both(rt: HostRuntime) -> Result<(), Fail> {
    let (out, ending) = run_over(rt.alloc(), TWO, POLE_OPEN, 2, 0, 0)?;
    let found = out.written();
    assert!(rt;
        found.starts_with(TWO_ANTENNAS[0]) || found.starts_with(TWO_ANTENNAS[1]),
        "the front"
    );
    assert!(rt; found.ends_with(b"\nEND\n"), "the end");
    assert!(rt;
        are_certified(rt.alloc(), &ending, 2, 1)?,
        "the certificate"
    );
    Ok(())
}

#[test]
fn two_antennas_serve_two_of_three(rt: HostRuntime) -> Result<(), Fail> {
    let (out, ending) = run_over(rt.alloc(), THREE, POLE_OPEN, 2, 0, 0)?;
    let found = out.written();
    let front: &[u8] =
        b"PASSBOOK 1\nWINDOW 2000-06-27T00:00:00.0000Z 2000-06-27T01:00:00.0000Z 1\nSTATION 1 Pole\nSAT 90001 OK -\nSAT 90002 OK -\nSAT 90003 OK -\nBOOK 1 3 72000000\nUSE ";
    let back: &[u8] =
        b"\nPRICE 2000-06-27T00:00:00.0000Z 2000-06-27T01:00:00.0000Z 36000000\nEND\n";
    assert!(rt; found.starts_with(front), "the front");
    assert!(rt; found.ends_with(back), "the back");
    // Between them stand two lines of 64 bytes, of which the first word and the last line feed are counted already.
    assert_eq!(rt; found.len(), front.len() + 123 + back.len());
    assert!(rt;
        are_certified(rt.alloc(), &ending, 2, 1)?,
        "the certificate"
    );
    Ok(())
}

#[test]
fn half_of_a_failing_line_is_written_also_of_contacts_and_prices(
    rt: HostRuntime,
) -> Result<(), Fail> {
    // The lines have 11, 61, 15, 15, 15, 18, 64, 67 and 4 bytes; the number of the satellite stands in the second half of the 7th.
    let rows: [(u64, usize); 4] = [(6, 126), (7, 167), (8, 232), (9, 268)];
    for (put, count) in &rows {
        let (out, _ending) = run_over(rt.alloc(), TWO, POLE_OPEN, 1, 0, *put)?;
        let one = ONE_ANTENNA[0].get(..*count).unwrap_or(&[]);
        let other = ONE_ANTENNA[1].get(..*count).unwrap_or(&[]);
        assert!(rt; out.written() == one || out.written() == other, "put {put}");
    }
    Ok(())
}
