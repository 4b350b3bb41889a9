//! Constants from one enclosure to another.
ghost use Rattle.std.specs.Prelude.{T};
ghost use Rattle.sgp4_model.specs.OrbitRecords.{ConstRecord};
ghost use Rattle.sgp4_shape.specs.Covering.{CoversConsts};
ghost use Rattle.sgp4_shape.specs.Lifted.{IsNarrowLift};

use crate::Consts;
use fixed_iv::Enc;

/// The same constants as enclosures of another kind, by their bounds.
pub fn lift<A: Enc, B: Enc>(consts: &Consts<A>) -> Consts<B>
    ensures covers { (k : ConstRecord) → CoversConsts A.covers consts.now k → CoversConsts B.covers result k }
    ensures narrow { T B.tells → IsNarrowLift A.extent B.extent consts.now result }
{
    Consts {
        i: B::constant(consts.i.bounds()),
        c: B::constant(consts.c.bounds()),
        si: B::constant(consts.si.bounds()),
        e: B::constant(consts.e.bounds()),
        w0: B::constant(consts.w0.bounds()),
        o0: B::constant(consts.o0.bounds()),
        m0: B::constant(consts.m0.bounds()),
        bstar: B::constant(consts.bstar.bounds()),
        a: B::constant(consts.a.bounds()),
        eta: B::constant(consts.eta.bounds()),
        con41: B::constant(consts.con41.bounds()),
        c5: B::constant(consts.c5.bounds()),
        xmcof: B::constant(consts.xmcof.bounds()),
        xlcof: B::constant(consts.xlcof.bounds()),
        aycof: B::constant(consts.aycof.bounds()),
        delmo: B::constant(consts.delmo.bounds()),
        sin_m0: B::constant(consts.sin_m0.bounds()),
        n0: B::constant(consts.n0.bounds()),
        mdot: B::constant(consts.mdot.bounds()),
        wdot: B::constant(consts.wdot.bounds()),
        odot: B::constant(consts.odot.bounds()),
        c1: B::constant(consts.c1.bounds()),
        c4: B::constant(consts.c4.bounds()),
        omgcof: B::constant(consts.omgcof.bounds()),
        t2cof: B::constant(consts.t2cof.bounds()),
        d2: B::constant(consts.d2.bounds()),
        nodecf: B::constant(consts.nodecf.bounds()),
        t3cof: B::constant(consts.t3cof.bounds()),
        d3: B::constant(consts.d3.bounds()),
        t4cof: B::constant(consts.t4cof.bounds()),
        d4: B::constant(consts.d4.bounds()),
        t5cof: B::constant(consts.t5cof.bounds()),
    }
}
