use crate::calls::run_over;
use crate::sets::VANGUARD;
use outside_io::MemorySink;
use std::alloc::{AllocError, Global};
use std::test::Fail;
use top_call::{Edge, Found, Outcome, Product, status};

/// Whether a published coordinate, between two whole numbers of millimetres, is at most a metre outside the bounds, and
/// these are at most ten metres apart.
fn is_near(edge: Edge, published: (i64, i64)) -> bool {
    edge.low.saturating_sub(1000) <= published.0
        && published.1 <= edge.high.saturating_add(1000)
        && edge.high.saturating_sub(edge.low) <= 10_000
}

/// A published position, each coordinate between two whole numbers of millimetres.
type Published = [(i64, i64); 3];

/// Whether this is found near the published position.
fn is_published(found: &Found, published: &Published) -> bool {
    match found {
        Found::Inside { x, y, z, .. } => {
            is_near(*x, published[0]) && is_near(*y, published[1]) && is_near(*z, published[2])
        }
        Found::Missing => false,
        Found::Refused { .. } => false,
        Found::Decayed { .. } => false,
    }
}

/// Whether the product is the published position.
fn is_located(product: &Product, published: &Published) -> bool {
    match product {
        Product::Located(answer) => is_published(&answer.found, published),
        Product::Day(_) => false,
        Product::Plan(_) => false,
        Product::Shown(_) => false,
        Product::Counted(_) => false,
        Product::Booked(_) => false,
    }
}

/// Whether the words of a line find the published position, and print lines that begin with these bytes.
fn finds(
    alloc: Global,
    line: &[u8],
    head: &[u8],
    published: &Published,
) -> Result<bool, AllocError> {
    let mut out = MemorySink::make(alloc, 1000)?;
    let outcome = run_over(alloc, line, VANGUARD, &mut out)?;
    let located = match &outcome {
        Outcome::Done { product } => is_located(product, published),
        _ => false,
    };
    Ok(
        located
            && status(&outcome) == 0
            && out.written().starts_with(head)
            && out.written().ends_with(b"\nEND\n"),
    )
}

#[test]
fn the_published_position_is_found_at_the_epoch(rt: HostRuntime) -> Result<(), Fail> {
    // 7022.46529266, -1400.08296755 and 0.03995155 km.
    let published = [
        (7_022_465_292, 7_022_465_293),
        (-1_400_082_968, -1_400_082_967),
        (39_951, 39_952),
    ];
    let line = b"locate --catalogue=a --number=5 --at=2000-06-27T18:50:19.733568Z";
    let head = b"PASSLOCATE 1\nAT 2000-06-27T18:50:19.733568000Z\nSAT 5 OK -\nX 70224";
    assert!(rt; finds(rt.alloc(), line, head, &published)?);
    Ok(())
}

#[test]
fn the_published_position_is_found_three_days_later(rt: HostRuntime) -> Result<(), Fail> {
    // -9060.47373569, 4658.70952502 and 813.68673153 km.
    let published = [
        (-9_060_473_736, -9_060_473_735),
        (4_658_709_525, 4_658_709_526),
        (813_686_731, 813_686_732),
    ];
    let line = b"locate --catalogue=a --number=5 --at=2000-06-30T18:50:19.733568Z";
    let head = b"PASSLOCATE 1\nAT 2000-06-30T18:50:19.733568000Z\nSAT 5 OK -\nX -90604";
    assert!(rt; finds(rt.alloc(), line, head, &published)?);
    Ok(())
}
