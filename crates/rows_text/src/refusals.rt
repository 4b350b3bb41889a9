//! The lines of refusals.
use catalogue::{CatFault, SetFault};
use omm_kvn::{Key, OmmFault};
use pass_text::{
    catalogue_fault_line, memory_line, read_line, too_long_line, usage_line, window_fault_line,
};
use pass_words::{Opt, UsageFault, WindowFault};
use tle_read::TleFault;

#[test]
fn files_that_are_no_catalogue_are_refused(rt: HostRuntime) {
    let rows: [(CatFault, &[u8]); 5] = [
        (CatFault::Empty, b"error catalogue empty\n"),
        (CatFault::Odd { line: 1 }, b"error catalogue odd 1\n"),
        (
            CatFault::Odd {
                line: 4_294_967_295,
            },
            b"error catalogue odd 4294967295\n",
        ),
        (CatFault::TooMany, b"error catalogue toomany\n"),
        (CatFault::OutOfMemory, b"error memory\n"),
    ];
    for (fault, printed) in &rows {
        let line = catalogue_fault_line(*fault);
        assert!(rt; line.bytes() == *printed, "{fault:?}");
    }
}

#[test]
fn faults_of_two_lines_are_told(rt: HostRuntime) {
    let rows: [(TleFault, &[u8]); 8] = [
        (
            TleFault::Length { line: 1, found: 68 },
            b"error catalogue set 3 tle length 1 68\n",
        ),
        (
            TleFault::LineNumber { line: 2 },
            b"error catalogue set 3 tle linenumber 2\n",
        ),
        (
            TleFault::Check {
                line: 1,
                found: 7,
                wanted: 8,
            },
            b"error catalogue set 3 tle check 1 7 8\n",
        ),
        (
            TleFault::Column { line: 2, first: 69 },
            b"error catalogue set 3 tle column 2 69\n",
        ),
        (
            TleFault::NumbersDiffer,
            b"error catalogue set 3 tle differ\n",
        ),
        (TleFault::Theory, b"error catalogue set 3 tle theory\n"),
        (
            TleFault::Range { line: 2, first: 9 },
            b"error catalogue set 3 tle range 2 9\n",
        ),
        (
            TleFault::Length {
                line: 2,
                found: 4_294_967_295,
            },
            b"error catalogue set 3 tle length 2 4294967295\n",
        ),
    ];
    for (fault, printed) in &rows {
        let line = catalogue_fault_line(CatFault::BadSet {
            line: 3,
            fault: SetFault::Tle(*fault),
        });
        assert!(rt; line.bytes() == *printed, "{fault:?}");
    }
}

#[test]
fn faults_of_a_message_are_told(rt: HostRuntime) {
    let rows: [(OmmFault, &[u8]); 6] = [
        (
            OmmFault::Line { line: 2 },
            b"error catalogue set 40 omm line 2\n",
        ),
        (
            OmmFault::Missing { key: Key::Bstar },
            b"error catalogue set 40 omm missing BSTAR\n",
        ),
        (
            OmmFault::Twice { key: Key::Epoch },
            b"error catalogue set 40 omm twice EPOCH\n",
        ),
        (
            OmmFault::Unsupported {
                key: Key::SemiMajorAxis,
            },
            b"error catalogue set 40 omm unsupported SEMI_MAJOR_AXIS\n",
        ),
        (
            OmmFault::Unsupported { key: Key::Theory },
            b"error catalogue set 40 omm unsupported MEAN_ELEMENT_THEORY\n",
        ),
        (
            OmmFault::Value { key: Key::Ecc },
            b"error catalogue set 40 omm value ECCENTRICITY\n",
        ),
    ];
    for (fault, printed) in &rows {
        let line = catalogue_fault_line(CatFault::BadSet {
            line: 40,
            fault: SetFault::Omm(*fault),
        });
        assert!(rt; line.bytes() == *printed, "{fault:?}");
    }
}

#[test]
fn other_refusals_are_told(rt: HostRuntime) {
    let rows = [
        (
            usage_line(UsageFault::Word { at: 2 }),
            "error usage word 2\n",
        ),
        (
            usage_line(UsageFault::Value { key: Opt::Lat }),
            "error usage value lat\n",
        ),
        (
            window_fault_line(WindowFault::Order),
            "error window order\n",
        ),
        (memory_line(), "error memory\n"),
        (read_line(), "error read\n"),
        (too_long_line(), "error toolong\n"),
    ];
    for (line, printed) in &rows {
        assert!(rt; line.bytes() == printed.as_bytes(), "{printed}");
    }
}
