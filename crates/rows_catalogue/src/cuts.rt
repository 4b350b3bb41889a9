//! The beginnings of a file of one set.
use crate::texts::{START, VANGUARD1, VANGUARD2, read};
use catalogue::{CatFault, SetFault};
use std::test::Fail;
use tle_read::TleFault;

/// What the beginning of a file of this many bytes answers. A space is where line 2 has columns 2, 8, 9, 17, 26, 34, 43,
/// 44 and 52, and a line loses the spaces at its end.
fn fault_of(length: usize) -> Option<CatFault> {
    let found = match length {
        0 => return Some(CatFault::Empty),
        1..=70 => return Some(CatFault::Odd { line: 1 }),
        139 => return None,
        72 => 1,
        78 | 79 => 7,
        87 => 16,
        96 => 25,
        104 => 33,
        113 | 114 => 42,
        122 => 51,
        71..=138 => length as u32 - 70,
        _ => 0,
    };
    Some(CatFault::BadSet {
        line: 1,
        fault: SetFault::Tle(TleFault::Length { line: 2, found }),
    })
}

#[test]
fn each_beginning_has_its_fault(rt: HostRuntime) -> Result<(), Fail> {
    let mut bytes = Vec::new(rt.alloc());
    bytes.extend_from_slice(VANGUARD1)?;
    bytes.push(b'\n')?;
    bytes.extend_from_slice(VANGUARD2)?;
    assert_eq!(rt; bytes.len(), 139, "the whole file");
    for length in 0..140 {
        let beginning = bytes.as_slice().get(..length).unwrap_or(&[]);
        let fault = read(rt.alloc(), beginning, START).err();
        assert_eq!(rt; fault, fault_of(length), "{length} bytes");
    }
    Ok(())
}
