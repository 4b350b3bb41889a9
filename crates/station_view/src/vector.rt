//! Directions and lengths along the local axes of a place.

/// A direction along the local east, north and up. `up` is the sine of the elevation.
#[derive(Clone, Copy)]
pub struct Sight<T> {
    pub east: T,
    pub north: T,
    pub up: T,
}

/// The components of a vector along the local east, north and up, and its length. All are in Earth radii.
#[derive(Clone, Copy)]
pub struct Lengths<T> {
    pub east: T,
    pub north: T,
    pub up: T,
    pub range: T,
}
