//! Laws of sine and cosine pairs.

ghost use Rattle.sgp4_model.specs.PairLaws.{NearIsDistance, OneAngleHasOnePair, ReflectionKeepsPairs, SineAndCosineExist, SinePairsAreBounded, SinePairsAreLipschitz, SquaresAddUpToOne, SumsAreAPair, TiedSumsAreClose, WholeTurnsKeepPairs};
ghost use Rattle.sgp4_model.specs.Slope.{SinePairsFollowTheirSlope};

/// Each angle has a sine and a cosine.
pub fn sine_and_cosine_exist()
    ensures { SineAndCosineExist }
{}

/// Two pairs of one angle differ by at most 2^-59 + 2^-66, also where two numbers of quarter turns are allowed.
pub fn one_angle_has_one_pair()
    ensures { OneAngleHasOnePair }
{}

/// Two sines and two cosines of angles of at most 2^20 in size differ by no more than their angles and 2^-57, also
/// where they come from two pis.
pub fn sine_pairs_are_lipschitz()
    ensures { SinePairsAreLipschitz }
{}

/// A pair of an angle is a pair of the angle and some whole turns.
pub fn whole_turns_keep_pairs()
    ensures { WholeTurnsKeepPairs }
{}

/// The opposite angle has the opposite sine and the same cosine.
pub fn reflection_keeps_pairs()
    ensures { ReflectionKeepsPairs }
{}

/// Sine and cosine are at most 1 + 2^-60 in size.
pub fn sine_pairs_are_bounded()
    ensures { SinePairsAreBounded }
{}

/// The squares of a sine and a cosine add up to 1, to 2^-58.
pub fn squares_add_up_to_one()
    ensures { SquaresAddUpToOne }
{}

/// Two numbers are near by e where their difference is at most e in size.
pub fn near_is_distance()
    ensures { NearIsDistance }
{}

/// A step d of at most 1 takes a sine s and a cosine c to s + d * c and c - d * s, up to half of d * d and 2^-54.
pub fn sine_pairs_follow_their_slope()
    ensures { SinePairsFollowTheirSlope }
{}

/// The sums themselves are a pair of each angle.
pub fn sums_are_a_pair()
    ensures { SumsAreAPair }
{}

/// The sums at the two numbers of quarter turns that a tie allows differ by at most 2^-66.
pub fn tied_sums_are_close()
    ensures { TiedSumsAreClose }
{}
