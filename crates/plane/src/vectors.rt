ghost use Rattle.std.specs.Prelude.{◌≡◌, ◌*◌, ◌≤◌, pos, unsigned_abs};
ghost use Rattle.plane.specs.Plane.{cross_of, dot_of, norm_of, way};
ghost use Rattle.plane.specs.Points.{spot_at, vector_at};

use crate::points::{Half, Spot, Vector};

impl<const LIMIT: u32> Spot<LIMIT> {
    /// The way to another point.
    pub fn way_to<const OTHER: u32>(self, to: Spot<OTHER>) -> Vector
        ensures { vector_at result ≡ way (spot_at self.entry) (spot_at to.entry) }
    {
        Vector {
            x: to.x as i64 - self.x as i64,
            y: to.y as i64 - self.y as i64,
        }
    }
}

impl Vector {
    /// The cross product: more than 0 where `w` is turned counterclockwise from it.
    pub fn cross(self, w: Vector) -> i64
        ensures { result ≡ cross_of (vector_at self) (vector_at w) }
    {
        self.x * w.y - self.y * w.x
    }

    /// The dot product.
    pub fn dot(self, w: Vector) -> i64
        ensures value { result ≡ dot_of (vector_at self) (vector_at w) }
        ensures small { unsigned_abs result ≤ 8000000000000 }
    {
        self.x * w.x + self.y * w.y
    }

    /// The square of the length.
    pub fn norm(self) -> i64
        ensures value { result ≡ norm_of (vector_at self) }
        ensures small { unsigned_abs result ≤ 8000000000000 }
    {
        self.dot(self)
    }
}

impl Half {
    /// Its square.
    pub fn squared(self) -> i64
        ensures value { result ≡ pos (self.ticks * self.ticks) }
        ensures small { unsigned_abs result ≤ 4000000000000 }
    {
        let r = self.ticks as i64;
        r * r
    }
}
