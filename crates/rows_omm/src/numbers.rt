//! Numbers and units, and their faults. The faults are those of a reader in Python.
use crate::lines::{reads, value};

#[test]
fn numbers_have_their_faults(rt: HostRuntime) {
    value(13, "NORAD_CAT_ID =", "NORAD_CAT_ID", &rt);
    value(13, "NORAD_CAT_ID = 25544 []", "NORAD_CAT_ID", &rt);
    value(13, "NORAD_CAT_ID = +25544", "NORAD_CAT_ID", &rt);
    value(14, "MEAN_MOTION = 100", "MEAN_MOTION", &rt);
    reads(14, "MEAN_MOTION = 99.999999999", &rt);
    value(14, "MEAN_MOTION = 0.0", "MEAN_MOTION", &rt);
    reads(14, "MEAN_MOTION = 1e-18[rev/day]", &rt);
    value(14, "MEAN_MOTION = -15.7", "MEAN_MOTION", &rt);
    value(14, "MEAN_MOTION = 15.7 ]", "MEAN_MOTION", &rt);
    value(14, "MEAN_MOTION = 15.7 [rev", "MEAN_MOTION", &rt);
    value(14, "MEAN_MOTION = 15.7\t \t[rev [day]]", "MEAN_MOTION", &rt);
    reads(14, "MEAN_MOTION = 15.7 []", &rt);
    value(14, "MEAN_MOTION = [rev/day]", "MEAN_MOTION", &rt);
    value(14, "MEAN_MOTION =", "MEAN_MOTION", &rt);
    reads(15, "ECCENTRICITY = 0", &rt);
    value(15, "ECCENTRICITY = -0.1", "ECCENTRICITY", &rt);
    reads(15, "ECCENTRICITY = .999999999999999999", &rt);
    reads(16, "INCLINATION = 180", &rt);
    value(16, "INCLINATION = 180.0001", "INCLINATION", &rt);
    value(16, "INCLINATION = -1", "INCLINATION", &rt);
}
