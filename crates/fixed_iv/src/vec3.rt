//! Three values along the axes of a frame.

/// Three values along the axes of a frame, in one unit.
#[derive(Clone, Copy)]
pub struct Vec3<T> {
    pub x: T,
    pub y: T,
    pub z: T,
}
