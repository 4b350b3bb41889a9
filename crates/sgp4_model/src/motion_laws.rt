//! Laws of the recovery of the mean motion.

ghost use Rattle.sgp4_model.specs.MotionLaws.{RecoveredMotionExists};

/// An element set of an eccentricity of at most 0.2 and a mean motion of at most 17 revolutions a day has a recovered
/// motion.
pub fn recovered_motion_exists()
    ensures { RecoveredMotionExists }
{}
