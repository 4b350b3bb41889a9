//! A sine and a cosine after quarter turns.
ghost use Rattle.std.specs.Prelude.{◌≡◌};
ghost use Rattle.sgp4_model.specs.Angle.{Pair, quadrant, turned};
ghost use Rattle.trig_enc.specs.Coded.{IsCodedPair, IsCodedSize};

/// The sine and the cosine of an angle with some quarter turns more.
pub fn turn(quarters: i64, sine: i64, cosine: i64) -> (i64, i64)
    requires sine_size { IsCodedSize sine }
    requires cosine_size { IsCodedSize cosine }
    ensures sine_size { IsCodedSize result.0 }
    ensures cosine_size { IsCodedSize result.1 }
    ensures pair { (p : Pair) → IsCodedPair sine cosine p → IsCodedPair result.0 result.1 (turned (quadrant quarters) p) }
{
    match quadrant_of(quarters) {
        0 => (sine, cosine),
        1 => (cosine, -sine),
        2 => (-sine, -cosine),
        _ => (-cosine, sine),
    }
}

/// What is left of the quarter turns after whole turns.
fn quadrant_of(quarters: i64) -> u64
    ensures { result ≡ quadrant quarters }
{
    quarters.rem_euclid(4).unsigned_abs()
}
