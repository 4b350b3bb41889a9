//! Each method of an enclosure, called through the interface.
use crate::draw::interval;
use crate::expected::METHODS;
use enc_plain::Plain;
use fixed_iv::{Enc, Iv, Side, Vec3};

/// The bounds that each method gives.
fn bounds_of_each<E: Enc>(x: Iv, y: Iv) -> [Iv; 13] {
    let constant = E::constant(x);
    let pi = E::pi();
    let line = E::line(x, y);
    let (sine, cosine) = line.sincos();
    [
        constant.bounds(),
        pi.bounds(),
        line.bounds(),
        line.plus(constant).bounds(),
        line.minus(pi).bounds(),
        line.times(pi).bounds(),
        pi.divided(line).bounds(),
        line.negate().bounds(),
        line.max_const(y).bounds(),
        sine.bounds(),
        cosine.bounds(),
        line.sqrt().bounds(),
        line.cbrt2().bounds(),
    ]
}

#[test]
fn each_method_at_the_plain_enclosure(rt: HostRuntime) {
    let x = interval(140737488355328, 140737488355331);
    let y = interval(844424930131968, 844424930131969);
    let mut expected = METHODS.iter();
    for bounds in bounds_of_each::<Plain>(x, y) {
        assert_eq!(rt; expected.next(), Some(&bounds.ends()));
    }
}

#[test]
fn vectors_and_sides_are_plain_values(rt: HostRuntime) {
    let axes = Vec3 { x: 1, y: 2, z: 3 };
    let copy = axes;
    assert_eq!(rt; (copy.x, copy.y, axes.z), (1, 2, 3));
    assert!(rt; Side::Yes != Side::No && Side::Unsure == Side::Unsure);
}
