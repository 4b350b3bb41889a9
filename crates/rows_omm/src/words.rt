//! Keys that stand twice, are left out or have other words, and their faults. The faults are those of a reader in Python.
use crate::lines::{missing, reads, refuses_line, twice, unsupported, value};

#[test]
fn words_have_their_faults(rt: HostRuntime) {
    refuses_line(2, "AGOM", 2, &rt);
    reads(2, "ORIGINATOR = X\nORIGINATOR = X", &rt);
    twice(2, "OBJECT_ID = X", "OBJECT_ID", &rt);
    twice(2, "OBJECT_NAME =", "OBJECT_NAME", &rt);
    reads(2, "EPHEMERIS_TYPE =", &rt);
    reads(2, "EPHEMERIS_TYPE = 0", &rt);
    reads(2, "EPHEMERIS_TYPE = 2", &rt);
    unsupported(2, "EPHEMERIS_TYPE = 4", "EPHEMERIS_TYPE", &rt);
    twice(
        2,
        "EPHEMERIS_TYPE = 0\nEPHEMERIS_TYPE = 0",
        "EPHEMERIS_TYPE",
        &rt,
    );
    reads(5, "", &rt);
    reads(6, "", &rt);
    reads(7, "", &rt);
    reads(8, "", &rt);
    reads(9, "", &rt);
    unsupported(7, "CENTER_NAME =", "CENTER_NAME", &rt);
    unsupported(7, "CENTER_NAME = Earth", "CENTER_NAME", &rt);
    missing(10, "", "MEAN_ELEMENT_THEORY", &rt);
    reads(10, "MEAN_ELEMENT_THEORY = SGP/SGP4", &rt);
    reads(12, "EPOCH = 2008-264T12:25:40.104192Z", &rt);
    value(12, "EPOCH = 2008-09-31T12:25:40", "EPOCH", &rt);
    value(12, "EPOCH = 2057-01-01T00:00:00", "EPOCH", &rt);
    value(12, "EPOCH = 2008-09-20T12:25:40 [UTC]", "EPOCH", &rt);
    reads(13, "NORAD_CAT_ID = 999999999", &rt);
    value(13, "NORAD_CAT_ID = 0000000001", "NORAD_CAT_ID", &rt);
}
