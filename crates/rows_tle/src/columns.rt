//! Which columns of the lines are read, which field each of them belongs to, and in which order the faults come.
use crate::lines::{VANGUARD1, VANGUARD2, with};
use tle_read::{TleFault, read_pair};

/// Below each column of line 1 a letter for its field or separator, or a point where it is not read.
const FIELDS1: &[u8; 69] = b"#abbbbb.c........deeffffffffffffg..........h........ijjjjjjjjklm....n";

/// The same of line 2.
const FIELDS2: &[u8; 69] = b"#abbbbbcddddddddeffffffffghhhhhhhijjjjjjjjkllllllllmnnnnnnnnnnn.....o";

/// An `x` in each column.
const WRONG: [u8; 69] = [b'x'; 69];

/// The first column of the field with this column, and the last column where it is not read.
fn first_of(fields: &[u8; 69], column: usize) -> usize {
    let field = fields.get(column.wrapping_sub(1)).copied().unwrap_or(b'.');
    if field == b'.' {
        return 69;
    }
    match fields.iter().position(|other| *other == field) {
        Some(place) => place.wrapping_add(1),
        None => 69,
    }
}

/// The first column from this one on that is read.
fn next_read(fields: &[u8; 69], column: usize) -> usize {
    for (index, field) in fields.iter().enumerate() {
        if column <= index.wrapping_add(1) && *field != b'.' {
            return index.wrapping_add(1);
        }
    }
    69
}

/// Whether the lines have this fault of a column.
fn has_fault(line1: &[u8; 69], line2: &[u8; 69], number: u8, column: usize) -> bool {
    match read_pair(line1, line2) {
        Err(TleFault::Column { line, first }) => line == number && usize::from(first) == column,
        _ => false,
    }
}

#[test]
fn a_wrong_column_is_a_fault_of_its_field(rt: HostRuntime) {
    for column in 2..70usize {
        let line1 = with(VANGUARD1, column, b"x", b'x');
        assert!(rt;
            has_fault(&line1, VANGUARD2, 1, first_of(FIELDS1, column)),
            "column {column} of line 1"
        );
        let line2 = with(VANGUARD2, column, b"x", b'x');
        assert!(rt;
            has_fault(VANGUARD1, &line2, 2, first_of(FIELDS2, column)),
            "column {column} of line 2"
        );
    }
}

#[test]
fn the_lowest_column_is_the_first_fault(rt: HostRuntime) {
    for column in 2..70usize {
        let line1 = with(VANGUARD1, column, &WRONG, b'x');
        let first1 = first_of(FIELDS1, next_read(FIELDS1, column));
        assert!(rt;
            has_fault(&line1, VANGUARD2, 1, first1),
            "from column {column} of line 1"
        );
        let line2 = with(VANGUARD2, column, &WRONG, b'x');
        let first2 = first_of(FIELDS2, next_read(FIELDS2, column));
        assert!(rt;
            has_fault(VANGUARD1, &line2, 2, first2),
            "from column {column} of line 2"
        );
    }
}
