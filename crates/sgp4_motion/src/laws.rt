//! Laws of what may be refused and accepted.

ghost use Rattle.sgp4_motion.specs.FateLaws.{AcceptedSetsAreNearALimit, NearEarthSetsAreFull, RefusedSetsMayBeRefused};

/// A set that may be refused at whatever instants may be refused from any instant to any other.
pub fn refused_sets_may_be_refused()
    ensures { RefusedSetsMayBeRefused }
{}

/// A set that may be accepted may be refused at most for its period or its perigee, where these are next to a limit.
pub fn accepted_sets_are_near_a_limit()
    ensures { AcceptedSetsAreNearALimit }
{}

/// With a least accepted perigee of 300 km, each recovered motion of a set that is near the Earth is full.
pub fn near_earth_sets_are_full()
    ensures { NearEarthSetsAreFull }
{}
