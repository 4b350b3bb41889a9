//! Decimals printed.
use decimals::Decimal;

#[test]
fn decimals_are_written(rt: HostRuntime) {
    for (digits, places, want) in [
        (0, 0, "0"),
        (-11606, 9, "-0.000011606"),
        (130536, 3, "130.536"),
        (1_082_419_157, 8, "10.82419157"),
        (1, 18, "0.000000000000000001"),
        (-999_999_999_999_999_999, 0, "-999999999999999999"),
        (999_999_999_999_999_999, 17, "9.99999999999999999"),
        (-999_999_999_999_999_999, 18, "-0.999999999999999999"),
        (-5, 1, "-0.5"),
        (100, 2, "1"),
    ] {
        let text = Decimal::of_scaled(digits, places).text();
        assert!(rt; text.as_slice() == want.as_bytes(), "{want}");
    }
}
