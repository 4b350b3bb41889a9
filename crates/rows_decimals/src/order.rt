//! The order of decimals.
use decimals::{
    Decimal, equal_values_are_equal, printed_decimals_are_read_back, texts_are_read_exactly,
};
use std::cmp::Ordering;

#[test]
fn decimals_stand_as_their_numbers(rt: HostRuntime) {
    equal_values_are_equal();
    printed_decimals_are_read_back();
    texts_are_read_exactly();
    let third = Decimal::of_scaled(333, 3);
    let half = Decimal::of_scaled(500, 3);
    let less = Decimal::of_scaled(-70, 1);
    assert_eq!(rt; half.digits(), 5, "zeros at the end are left off");
    assert_eq!(rt; half.places(), 1, "and their places");
    assert_eq!(rt; less.digits(), -7, "below 0 as well");
    assert!(rt; half == Decimal::of_scaled(5, 1), "one number");
    assert!(rt; third < half, "0.333 and 0.5");
    assert!(rt; less.is_below(third), "-7 and 0.333");
    assert!(rt; !half.is_at_most(third), "0.5 and 0.333");
    assert!(rt; less.is_between(-7, 0), "-7 from -7 to 0");
    assert!(rt; !half.is_between(1, 2), "0.5 from 1 to 2");
    assert!(rt; less.is_between(-8, -7), "-7 from -8 to -7");
    assert!(rt;
        half.is_at_most(half) && !half.is_below(half),
        "0.5 and 0.5"
    );
    assert!(rt;
        Decimal::whole(3).cmp(&Decimal::of_scaled(3, 18)) == Ordering::Greater,
        "3 and 3e-18"
    );
}
