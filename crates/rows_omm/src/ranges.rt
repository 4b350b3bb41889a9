//! Ranges, and the order of faults. The faults are those of a reader in Python.
use crate::lines::{missing, reads, refuses_line, twice, unsupported, value};

#[test]
fn ranges_have_their_faults(rt: HostRuntime) {
    reads(16, "INCLINATION = 0", &rt);
    reads(17, "RA_OF_ASC_NODE = -360", &rt);
    reads(17, "RA_OF_ASC_NODE = 360", &rt);
    value(17, "RA_OF_ASC_NODE = 360.1", "RA_OF_ASC_NODE", &rt);
    value(17, "RA_OF_ASC_NODE = -360.1", "RA_OF_ASC_NODE", &rt);
    reads(18, "ARG_OF_PERICENTER = -360", &rt);
    reads(18, "ARG_OF_PERICENTER = 360", &rt);
    value(18, "ARG_OF_PERICENTER = 361", "ARG_OF_PERICENTER", &rt);
    value(
        18,
        "ARG_OF_PERICENTER = -360.000001",
        "ARG_OF_PERICENTER",
        &rt,
    );
    reads(19, "MEAN_ANOMALY = -360", &rt);
    reads(19, "MEAN_ANOMALY = 360", &rt);
    value(19, "MEAN_ANOMALY = -361", "MEAN_ANOMALY", &rt);
    value(19, "MEAN_ANOMALY = 361", "MEAN_ANOMALY", &rt);
    missing(19, "", "MEAN_ANOMALY", &rt);
    reads(11, "BSTAR = 1e3 [1/ER]", &rt);
    value(11, "BSTAR = 1e-19", "BSTAR", &rt);
}

#[test]
fn the_first_fault_is_answered(rt: HostRuntime) {
    twice(
        14,
        "MEAN_MOTION = 0\nMEAN_MOTION = 1\n?",
        "MEAN_MOTION",
        &rt,
    );
    refuses_line(14, "?\nMEAN_MOTION = 0\nMEAN_MOTION = 1", 14, &rt);
    unsupported(14, "BTERM = 0\n?", "BTERM", &rt);
    twice(14, "CENTER_NAME = MARS", "CENTER_NAME", &rt);
    twice(1, "REF_FRAME = X", "REF_FRAME", &rt);
}
