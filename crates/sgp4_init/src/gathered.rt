//! The constants, gathered from their parts.
ghost use Rattle.sgp4_init.specs.Gathered.{HoldsGathered};

use crate::coefficients::Coefficients;
use crate::density::Density;
use crate::drag::Drag;
use crate::epoch::Epoch;
use crate::rates::Rates;
use crate::series::Series;
use fixed_iv::Enc;
use sgp4_motion::Recovered;
use sgp4_shape::Consts;

/// The constants that the propagation takes, of their parts.
pub(crate) fn gathered<E: Enc>(
    epoch: &Epoch<E>,
    motion: &Recovered<E>,
    density: &Density<E>,
    drag: &Drag<E>,
    rates: &Rates<E>,
    rest: &Coefficients<E>,
    series: &Series<E>,
) -> Consts<E>
    ensures { HoldsGathered E.Enc epoch.now motion.now density.now drag.now rates.now rest.now series.now result }
{
    Consts {
        i: motion.i,
        c: motion.c,
        si: motion.si,
        e: motion.e,
        w0: epoch.w0,
        o0: epoch.o0,
        m0: epoch.m0,
        bstar: epoch.bstar,
        a: motion.a,
        eta: density.eta,
        con41: motion.con41,
        c5: drag.c5,
        xmcof: rest.xmcof,
        xlcof: rest.xlcof,
        aycof: rest.aycof,
        delmo: rest.delmo,
        sin_m0: epoch.sin_m0,
        n0: motion.n0,
        mdot: rates.mdot,
        wdot: rates.wdot,
        odot: rates.odot,
        c1: drag.c1,
        c4: drag.c4,
        omgcof: rest.omgcof,
        t2cof: rest.t2cof,
        d2: series.d2,
        nodecf: rest.nodecf,
        t3cof: series.t3cof,
        d3: series.d3,
        t4cof: series.t4cof,
        d4: series.d4,
        t5cof: series.t5cof,
    }
}
