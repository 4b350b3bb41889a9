//! The brackets in the drag coefficients.
ghost use Rattle.fixed_iv.specs.Follows.{Follows2, Follows3, Follows4, FollowsRatio2};
ghost use Rattle.sgp4_init.specs.DragLines.{along_orbit, by_eccentricity, by_oblateness, c4_bracket, c5_bracket, share_of_j2, steady_shape, turning_shape};

use crate::numbers::number;
use fixed_iv::Enc;

/// The first part of the bracket in C2, from the square of eta and from e times eta.
pub(crate) fn along_orbit<E: Enc>(a: E, et2: E, eeta: E) -> E
    ensures { Follows3 E.Enc result along_orbit a et2 eeta }
{
    let sum = number::<E>(1, 1)
        .plus(number::<E>(3, 2).times(et2))
        .plus(eeta.times(number::<E>(4, 1).plus(et2)));
    a.times(sum)
}

/// The second part of the bracket in C2, which the second harmonic makes. `xp` is xi over psi.
pub(crate) fn by_oblateness<E: Enc>(xp: E, con41: E, et2: E) -> E
    ensures { Follows3 E.Enc result by_oblateness xp con41 et2 }
{
    let shape = number::<E>(8, 1).plus(
        number::<E>(3, 1)
            .times(et2)
            .times(number::<E>(8, 1).plus(et2)),
    );
    number::<E>(405_981, 1_000_000_000)
        .times(xp)
        .times(con41)
        .times(shape)
}

/// The first part of the bracket in C4.
pub(crate) fn by_eccentricity<E: Enc>(eta: E, e: E, et2: E) -> E
    ensures { Follows3 E.Enc result by_eccentricity eta e et2 }
{
    let of_eta = eta.times(number::<E>(2, 1).plus(number::<E>(1, 2).times(et2)));
    let of_e = e.times(number::<E>(1, 2).plus(et2).plus(et2));
    of_eta.plus(of_e)
}

/// The term in the bracket of C4 that does not turn with the perigee.
pub(crate) fn steady_shape<E: Enc>(con41: E, et2: E, eeta: E) -> E
    ensures { Follows3 E.Enc result steady_shape con41 et2 eeta }
{
    let inner = number::<E>(3, 2).minus(number::<E>(1, 2).times(eeta));
    con41.times(
        number::<E>(1, 1)
            .minus(eeta.plus(eeta))
            .plus(et2.times(inner)),
    )
}

/// The term in the bracket of C4 that turns with twice the argument of perigee.
pub(crate) fn turning_shape<E: Enc>(c: E, et2: E, eeta: E, cosine: E) -> E
    ensures { Follows4 E.Enc result turning_shape c et2 eeta cosine }
{
    let inner = et2.plus(et2).minus(eeta.times(number::<E>(1, 1).plus(et2)));
    number::<E>(1, 1)
        .minus(c.times(c))
        .times(inner)
        .times(cosine)
}

/// The share of the second harmonic in the bracket of C4. `xp` is xi over psi.
pub(crate) fn share_of_j2<E: Enc>(xp: E, a: E) -> E
    ensures { FollowsRatio2 E.Enc result share_of_j2 xp a }
{
    number::<E>(1_082_616, 1_000_000_000).times(xp).divided(a)
}

/// The bracket in C4, of its first part, that share and the two terms that the second harmonic makes.
pub(crate) fn c4_bracket<E: Enc>(first: E, share: E, steady: E, turning: E) -> E
    ensures { Follows4 E.Enc result c4_bracket first share steady turning }
{
    let shape = number::<E>(3, 4)
        .times(turning)
        .minus(number::<E>(3, 1).times(steady));
    first.minus(share.times(shape))
}

/// The bracket in C5.
pub(crate) fn c5_bracket<E: Enc>(et2: E, eeta: E) -> E
    ensures { Follows2 E.Enc result c5_bracket et2 eeta }
{
    number::<E>(1, 1)
        .plus(number::<E>(11, 4).times(et2.plus(eeta)))
        .plus(eeta.times(et2))
}
