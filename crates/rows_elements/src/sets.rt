//! Element sets: the one of the space station that a report on the format prints.
use elements::{Decimal, Elements, Instant, is_angle, is_eccentricity, is_inclination, is_motion};

#[test]
fn a_set_keeps_its_numbers(rt: HostRuntime) {
    let motion = Decimal::of_scaled(1_572_125_391, 8);
    let ecc = Decimal::of_scaled(6703, 7);
    let incl = Decimal::of_scaled(516_416, 4);
    let node = Decimal::of_scaled(2_474_627, 4);
    let argp = Decimal::of_scaled(1_305_360, 4);
    let anomaly = Decimal::of_scaled(3_250_288, 4);
    if is_motion(motion)
        && is_eccentricity(ecc)
        && is_inclination(incl)
        && is_angle(node)
        && is_angle(argp)
        && is_angle(anomaly)
    {
        let set = Elements::make(
            25544,
            Instant::from_nanos(275_185_540_104_192_000),
            motion,
            ecc,
            incl,
            node,
            argp,
            anomaly,
            Decimal::of_scaled(-11606, 9),
        );
        assert_eq!(rt; set.number(), 25544, "number");
        assert_eq!(rt; set.epoch().nanos(), 275_185_540_104_192_000, "epoch");
        assert!(rt; set.motion() == motion, "motion");
        assert!(rt; set.ecc() == Decimal::of_scaled(67_030, 8), "eccentricity");
        assert!(rt;
            set.incl() == Decimal::of_scaled(51_641_600, 6),
            "inclination"
        );
        assert!(rt; set.node() == Decimal::of_scaled(2_474_627, 4), "node");
        assert!(rt;
            set.argp() == Decimal::of_scaled(130_536, 3),
            "argument of perigee"
        );
        assert!(rt;
            set.anomaly() == Decimal::of_scaled(3_250_288, 4),
            "anomaly"
        );
        assert!(rt;
            set.bstar() == Decimal::of_scaled(-1_160_600, 11),
            "drag term"
        );
    } else {
        assert!(rt; false, "the numbers are in their ranges");
    }
}

#[test]
fn ranges_have_their_ends(rt: HostRuntime) {
    let (zero, one, least) = (
        Decimal::whole(0),
        Decimal::whole(1),
        Decimal::of_scaled(1, 18),
    );
    assert!(rt; !is_motion(zero) && is_motion(least), "a motion is above 0");
    assert!(rt;
        is_eccentricity(zero) && !is_eccentricity(one),
        "from 0 to below 1"
    );
    assert!(rt; is_inclination(Decimal::whole(180)), "180 degrees");
    assert!(rt; !is_inclination(Decimal::of_scaled(1_800_001, 4)), "more");
    assert!(rt;
        is_inclination(zero) && !is_inclination(Decimal::of_scaled(-1, 18)),
        "none and less"
    );
    let (turn, more) = (Decimal::whole(360), Decimal::of_scaled(3_600_001, 4));
    let (back, less) = (Decimal::whole(-360), Decimal::of_scaled(-3_600_001, 4));
    assert!(rt; is_angle(turn) && is_angle(back), "one turn");
    assert!(rt; !is_angle(more) && !is_angle(less), "more than a turn");
}
