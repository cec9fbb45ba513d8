ghost use Rattle.std.specs.Prelude.{◌≡◌, Bool, ℤ};
ghost use Rattle.plane.specs.declared.points.Bounds.{Bounds};
ghost use Rattle.shapes.specs.Box.{Encloses};

use plane::points::{Bounds, Point};

/// A set of whole points, within a box.
pub trait Shape {
    ghost covered: { Self → ℤ → ℤ → Bool };

    ghost boxed: { Self → Bounds };

    /// Whether the point is covered.
    fn covers(&self, p: Point) -> bool
        ensures { result ≡ covered self.now p.x p.y };

    /// The box: each covered point lies in it.
    fn bounds(&self) -> Bounds
        ensures value { result ≡ boxed self.now }
        ensures law { Encloses (covered self.now) (boxed self.now) };
}
