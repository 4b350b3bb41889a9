//! Lines of all kinds, and their faults. The faults are those of a reader in Python.
use crate::lines::{missing, reads, refuses_line, twice, unsupported, value};

#[test]
fn keys_have_their_faults(rt: HostRuntime) {
    unsupported(14, "SEMI_MAJOR_AXIS = 6730", "SEMI_MAJOR_AXIS", &rt);
    twice(
        12,
        "EPOCH = 2008-09-20T12:25:40.104192\nEPOCH = 2008-09-20T12:25:40.104192",
        "EPOCH",
        &rt,
    );
    unsupported(
        10,
        "MEAN_ELEMENT_THEORY = SGP4-XP",
        "MEAN_ELEMENT_THEORY",
        &rt,
    );
    missing(11, "", "BSTAR", &rt);
    value(15, "ECCENTRICITY = 1.0", "ECCENTRICITY", &rt);
    unsupported(7, "CENTER_NAME = MARS", "CENTER_NAME", &rt);
    unsupported(8, "REF_FRAME = EME2000", "REF_FRAME", &rt);
    unsupported(9, "TIME_SYSTEM = TAI", "TIME_SYSTEM", &rt);
    value(11, "BSTAR = nan", "BSTAR", &rt);
    unsupported(1, "CCSDS_OMM_VERS = 1.0", "CCSDS_OMM_VERS", &rt);
    reads(1, "CCSDS_OMM_VERS = 3.0", &rt);
    unsupported(1, "CCSDS_OMM_VERS =", "CCSDS_OMM_VERS", &rt);
}

#[test]
fn lines_have_their_faults(rt: HostRuntime) {
    refuses_line(1, "CCSDS_OMM_VERS", 1, &rt);
    missing(1, "CCSDS_OMM_VERSION = 2.0", "CCSDS_OMM_VERS", &rt);
    reads(1, "\n \t\r\n \tCCSDS_OMM_VERS\t=\t2.0\t \r", &rt);
    reads(2, "COMMENT", &rt);
    reads(2, "COMMENT\tOBJECT_NAME = X", &rt);
    reads(2, "COMMENT= X", &rt);
    refuses_line(2, "COMMENTS", 2, &rt);
    refuses_line(2, "object_name = X", 2, &rt);
    refuses_line(2, "OBJECT NAME = X", 2, &rt);
    refuses_line(2, "= X", 2, &rt);
    unsupported(2, "BTERM = 1", "BTERM", &rt);
    unsupported(2, "AGOM = 1", "AGOM", &rt);
    reads(2, "AZ_09 = X", &rt);
    refuses_line(2, "A/B = X", 2, &rt);
    refuses_line(2, "A:B = X", 2, &rt);
    refuses_line(2, "A@B = X", 2, &rt);
    refuses_line(2, "A[B = X", 2, &rt);
    refuses_line(2, "A^B = X", 2, &rt);
    refuses_line(2, "A`B = X", 2, &rt);
    refuses_line(2, "\rX = 1", 2, &rt);
    refuses_line(2, "X\r= 1", 2, &rt);
}
