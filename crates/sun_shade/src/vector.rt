//! The numbers that tell light from shadow.

/// The depth along the Sun's direction, in Earth radii, and the height over the shadow's cylinder, in their squares.
#[derive(Clone, Copy)]
pub struct Shade<T> {
    pub p: T,
    pub g: T,
}
