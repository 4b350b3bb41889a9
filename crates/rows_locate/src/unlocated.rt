use crate::calls::writes;
use crate::sets::{VANGUARD, VANGUARD1};
use std::test::Fail;

#[test]
fn the_first_fault_of_the_words_is_the_one_line(rt: HostRuntime) -> Result<(), Fail> {
    writes("locate", b"", b"error usage missing catalogue\n", 2, &rt)?;
    writes(
        "locate --catalogue=a --at=x --number=1 --number=2",
        b"",
        b"error usage twice number\n",
        2,
        &rt,
    )?;
    writes(
        "locate --catalogue=a --number=1234567890 --at=2000",
        b"",
        b"error usage value number\n",
        2,
        &rt,
    )?;
    writes(
        "locate --catalogue=a --number=5 --at=2000-06-27",
        b"",
        b"error window shape\n",
        3,
        &rt,
    )?;
    writes(
        "locate --catalogue=b --number=5 --at=2057-01-01T00:00:00Z",
        b"",
        b"error window year\n",
        3,
        &rt,
    )?;
    Ok(())
}

/// Words that ask for a position.
const WORDS: &str = "locate --catalogue=a --number=5 --at=2000-06-27T00:00:00Z";

#[test]
fn the_first_fault_of_the_file_is_the_one_line(rt: HostRuntime) -> Result<(), Fail> {
    writes(
        "locate --catalogue=b --number=5 --at=2000-06-27T00:00:00Z",
        VANGUARD,
        b"error read\n",
        6,
        &rt,
    )?;
    writes(WORDS, b"\n\n", b"error catalogue empty\n", 4, &rt)?;
    writes(WORDS, VANGUARD1, b"error catalogue odd 1\n", 4, &rt)?;
    writes(
        "locate --catalogue=a --number=6 --at=2000-06-27T00:00:00Z",
        b"1 00005U 58002B   00179.78495062  .00000023  00000-0  28098-4 0  4754\n2 00005  34.2682 348.7242 1859667 331.7664  19.3264 10.82419157413667\n",
        b"error catalogue set 1 tle check 1 4 3\n",
        4,
        &rt,
    )?;
    writes(
        WORDS,
        b"CCSDS_OMM_VERS = 2.0\n",
        b"error catalogue set 1 omm missing MEAN_ELEMENT_THEORY\n",
        4,
        &rt,
    )?;
    Ok(())
}
