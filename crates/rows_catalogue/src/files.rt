//! Files of two-line sets, and their faults.
use crate::texts::{
    START, STATION1, STATION2, VANGUARD1, VANGUARD2, expect, has, lines, only, read,
};
use catalogue::{CatFault, Catalogue, SetFault};
use elements::Elements;
use std::alloc::{AllocError, Global};
use std::process::Abort;
use std::test::Fail;
use tle_read::TleFault;

/// Whether these are the elements that the lines of Vanguard 1 write.
fn is_vanguard(elements: &Elements) -> bool {
    elements.number() == 5
        && elements.epoch().nanos() == 15_403_819_733_568_000
        && has(elements.motion(), 1_082_419_157, 8)
        && has(elements.ecc(), 1_859_667, 7)
        && has(elements.incl(), 342_682, 4)
        && has(elements.node(), 3_487_242, 4)
        && has(elements.argp(), 3_317_664, 4)
        && has(elements.anomaly(), 193_264, 4)
        && has(elements.bstar(), 28098, 9)
}

/// Whether the catalogue has Vanguard 1 alone, without a name.
fn has_vanguard_alone(catalogue: &Catalogue) -> bool {
    if catalogue.len() != 1 {
        return false;
    }
    let entry = catalogue.entry(0);
    is_vanguard(&entry.elements) && entry.name.bytes() == b"-".as_slice()
}

#[test]
fn a_set_is_read(rt: HostRuntime) -> Result<(), Fail> {
    let bytes =
        b"1 00005U 58002B   00179.78495062  .00000023  00000-0  28098-4 0  4753\r\n2 00005  34.2682 348.7242 1859667 331.7664  19.3264 10.82419157413667\r\n";
    match read(rt.alloc(), bytes, START) {
        Ok(catalogue) => {
            assert!(rt; has_vanguard_alone(&catalogue), "one satellite");
            assert!(rt; catalogue.find(5).is_some(), "the number is there");
            assert!(rt; catalogue.find(6).is_none(), "no other is");
        }
        Err(fault) => assert!(rt; false, "{fault:?}"),
    }
    Ok(())
}

/// The lines that a text lists, which are parted by bars: `V1` and `V2` are those of Vanguard 1, `S1` and `S2` those of
/// the station, and each other one is itself.
fn file(alloc: Global, text: &str) -> Result<Vec<u8>, AllocError> {
    let mut bytes = Vec::new(alloc);
    for line in text.split('|') {
        match line {
            "V1" => bytes.extend_from_slice(VANGUARD1)?,
            "V2" => bytes.extend_from_slice(VANGUARD2)?,
            "S1" => bytes.extend_from_slice(STATION1)?,
            "S2" => bytes.extend_from_slice(STATION2)?,
            other => bytes.extend_from_slice(other.as_bytes())?,
        }
        bytes.push(b'\n')?;
    }
    Ok(bytes)
}

/// The file with these lines has this fault, or none.
fn answers(
    text: &str,
    fault: Option<CatFault>,
    rt: &(impl Abort + AllocGlobal),
) -> Result<(), AllocError> {
    let bytes = file(rt.alloc(), text)?;
    expect(bytes.as_slice(), fault, text, rt);
    Ok(())
}

/// A line that stands where a line of an element set should.
fn odd(line: u32) -> Option<CatFault> {
    Some(CatFault::Odd { line })
}

/// The fault of two lines, the first of which has this number.
fn bad(line: u32, fault: TleFault) -> Option<CatFault> {
    Some(CatFault::BadSet {
        line,
        fault: SetFault::Tle(fault),
    })
}

#[test]
fn files_have_their_odd_lines(rt: HostRuntime) -> Result<(), Fail> {
    expect(b"", Some(CatFault::Empty), "no byte", &rt);
    answers("| \t\r|\r", Some(CatFault::Empty), &rt)?;
    answers("V1", odd(1), &rt)?;
    answers("|V1|", odd(2), &rt)?;
    answers("0 VANGUARD 1", odd(1), &rt)?;
    answers("0 VANGUARD 1||V1", odd(3), &rt)?;
    answers("A|B|V1|V2", odd(1), &rt)?;
    answers("V2|V1|V2", odd(1), &rt)?;
    answers("V1|V1|V2", odd(1), &rt)?;
    answers("|V1|V2||A", odd(5), &rt)?;
    answers("  CCSDS_OMM_VERS = 2.0", odd(1), &rt)?;
    answers("V1||V2||A|V1|V2", None, &rt)?;
    Ok(())
}

#[test]
fn sets_have_their_faults(rt: HostRuntime) -> Result<(), Fail> {
    let short = TleFault::Length { line: 2, found: 1 };
    answers("A|V1|V1", bad(2, TleFault::LineNumber { line: 2 }), &rt)?;
    answers("|V1|S2", bad(2, TleFault::NumbersDiffer), &rt)?;
    answers("V1|2", bad(1, short), &rt)?;
    answers("V1|V2|A||S1|2", bad(5, short), &rt)?;
    answers("V1|2|A|B", bad(1, short), &rt)?;
    Ok(())
}

/// The set with this line in front has this name.
fn names(line: &[u8], name: &[u8], rt: &(impl Abort + AllocGlobal)) -> Result<(), AllocError> {
    let bytes = lines(rt.alloc(), &[line, VANGUARD1, VANGUARD2])?;
    let read = only(rt.alloc(), bytes.as_slice(), START, name);
    assert!(rt; read == (5, 15_403_819_733_568_000, true), "{line:?}");
    Ok(())
}

#[test]
fn names_are_printable(rt: HostRuntime) -> Result<(), Fail> {
    names(b"0 VANGUARD 1", b"VANGUARD 1", &rt)?;
    names(b"VANGUARD 1 \t", b"VANGUARD 1", &rt)?;
    names(b"  VANGUARD 1", b"VANGUARD 1", &rt)?;
    names(b" 0 X", b"X", &rt)?;
    names(b"  0   X", b"X", &rt)?;
    names(b"0 0 X", b"0 X", &rt)?;
    names(b"0 ", b"0", &rt)?;
    names(b"00 X", b"00 X", &rt)?;
    names(b"1 X", b"1 X", &rt)?;
    names(b"1", b"1", &rt)?;
    names(b"\tX", b"?X", &rt)?;
    names(b"X\x7f~\x1f", b"X?~?", &rt)?;
    names(b"\xc3\xa9 \xff", b"?? ?", &rt)?;
    Ok(())
}

/// A name of 64 bytes.
const LONG: &[u8] = b"ABCDEFGHIJKLMNOPQRSTUVWXYZabcdefghijklmnopqrstuvwxyz0123456789+/";

/// The set with this in front of that name, and this behind it, has that name.
fn cuts(front: &[u8], behind: &[u8], rt: &(impl Abort + AllocGlobal)) -> Result<(), AllocError> {
    let mut line = Vec::new(rt.alloc());
    line.extend_from_slice(front)?;
    line.extend_from_slice(LONG)?;
    line.extend_from_slice(behind)?;
    names(line.as_slice(), LONG, rt)
}

#[test]
fn names_have_64_bytes_at_most(rt: HostRuntime) -> Result<(), Fail> {
    cuts(b"", b"", &rt)?;
    cuts(b"", b"=", &rt)?;
    cuts(b"0 ", b"==", &rt)?;
    Ok(())
}
