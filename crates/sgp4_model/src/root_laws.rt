//! Laws of roots.

ghost use Rattle.sgp4_model.specs.RootLaws.{CubeRootExists, SquareRootExists, SquareRootsAreLipschitz};

/// Each number that is not negative has a square root.
pub fn square_root_exists()
    ensures { SquareRootExists }
{}

/// The square of each positive number has a cube root.
pub fn cube_root_exists()
    ensures { CubeRootExists }
{}

/// Two square roots of numbers of at least the square of l and 2^-60 differ by at most 1 / (2 l) times the difference
/// of the numbers and 2^-59.
pub fn square_roots_are_lipschitz()
    ensures { SquareRootsAreLipschitz }
{}
