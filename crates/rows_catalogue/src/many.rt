//! Large files.
use crate::texts::{START, VANGUARD1, VANGUARD2, expect, read};
use catalogue::CatFault;
use std::alloc::{AllocError, Global};
use std::process::Abort;
use std::test::Fail;

/// The check digit of a line: its digits are added, and a minus sign counts one.
fn check_digit(line: &[u8; 69]) -> u8 {
    let mut sum = 0u32;
    for byte in line.iter().take(68) {
        sum = match *byte {
            digit @ b'0'..=b'9' => sum.wrapping_add((digit - b'0') as u32),
            b'-' => sum.wrapping_add(1),
            _ => sum,
        };
    }
    b'0' + (sum % 10) as u8
}

/// The line with this number of five digits in its columns 3 to 7, and its check digit.
fn with_number(line: &[u8; 69], number: u32) -> [u8; 69] {
    let mut line = *line;
    let mut rest = number;
    for column in 2..7 {
        line[8 - column] = b'0' + (rest % 10) as u8;
        rest /= 10;
    }
    line[68] = check_digit(&line);
    line
}

/// The number behind this one, modulo count.
fn next(number: u32, step: u32, count: u32) -> u32 {
    if count == 0 {
        0
    } else {
        number.wrapping_add(step) % count
    }
}

/// A file of so many sets. The k-th has the number k * step modulo count.
fn file(alloc: Global, count: u32, step: u32) -> Result<Vec<u8>, AllocError> {
    let mut bytes = Vec::new(alloc);
    let mut number = 0u32;
    for _ in 0..count {
        bytes.extend_from_slice(&with_number(VANGUARD1, number))?;
        bytes.push(b'\n')?;
        bytes.extend_from_slice(&with_number(VANGUARD2, number))?;
        bytes.push(b'\n')?;
        number = next(number, step, count);
    }
    Ok(bytes)
}

/// So many satellites are read in the order of that file, and found by their numbers.
fn are_read(count: u32, step: u32, rt: &(impl Abort + AllocGlobal)) -> Result<(), AllocError> {
    let bytes = file(rt.alloc(), count, step)?;
    match read(rt.alloc(), bytes.as_slice(), START) {
        Ok(catalogue) => {
            assert_eq!(rt; catalogue.len(), count, "as many satellites");
            let mut number = 0u32;
            for k in 0..catalogue.len() {
                let found = catalogue.entry(k).elements.number();
                assert_eq!(rt; found, number, "the number of satellite {k}");
                assert!(rt; catalogue.find(found).is_some(), "satellite {k} is found");
                number = next(number, step, count);
            }
        }
        Err(fault) => assert!(rt; false, "{count} sets: {fault:?}"),
    }
    Ok(())
}

#[test]
fn many_satellites_are_read_in_order(rt: HostRuntime) -> Result<(), Fail> {
    are_read(5_000, 4_999, &rt)?;
    are_read(5_000, 7, &rt)?;
    are_read(16_384, 5, &rt)?;
    are_read(1, 1, &rt)?;
    Ok(())
}

/// A file of so many sets of one satellite, and this text behind them, has this fault, or none.
fn answers(
    count: u32,
    behind: &str,
    fault: Option<CatFault>,
    rt: &(impl Abort + AllocGlobal),
) -> Result<(), AllocError> {
    let mut bytes = Vec::new(rt.alloc());
    for _ in 0..count {
        bytes.extend_from_slice(VANGUARD1)?;
        bytes.push(b'\n')?;
        bytes.extend_from_slice(VANGUARD2)?;
        bytes.push(b'\n')?;
    }
    bytes.extend_from_slice(behind.as_bytes())?;
    expect(bytes.as_slice(), fault, behind, rt);
    Ok(())
}

#[test]
fn there_may_be_16384_sets(rt: HostRuntime) -> Result<(), Fail> {
    answers(16_384, "", None, &rt)?;
    answers(16_384, "\n\r\n \n", None, &rt)?;
    answers(16_385, "", Some(CatFault::TooMany), &rt)?;
    answers(16_384, "\nA", Some(CatFault::TooMany), &rt)?;
    answers(16_383, "\nA", Some(CatFault::Odd { line: 32_768 }), &rt)?;
    let bytes = file(rt.alloc(), 16_385, 1)?;
    expect(
        bytes.as_slice(),
        Some(CatFault::TooMany),
        "16385 satellites",
        &rt,
    );
    Ok(())
}
