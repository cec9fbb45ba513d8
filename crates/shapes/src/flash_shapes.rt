ghost use Rattle.std.specs.Prelude.{◌≡◌, ◌≤◌, unsigned_abs};
ghost use Rattle.plane.specs.Points.{place_at, vector_at};
ghost use Rattle.shapes.specs.Box.{box_about};
ghost use Rattle.shapes.specs.Flashes.{near, in_circle, in_rectangle, in_lying, in_obround, circle_at, rectangle_at, obround_at};

use crate::flashes::{Circle, Obround, Rectangle};
use crate::reach::Reach;
use crate::shape::Shape;
use plane::points::{Bounds, Half, Place, Point, Vector};

// from here to `in_obround` no methods: halves and vectors are types of the plane

fn is_near(half: Half, w: Vector) -> bool
    ensures { result ≡ near half.ticks (vector_at w) }
{
    w.norm() <= half.squared()
}

/// Whether a circle of this half covers what lies at `w` from its place.
pub fn in_circle(half: Half, w: Vector) -> bool
    ensures { result ≡ in_circle half.ticks (vector_at w) }
{
    half.ticks > 0 && is_near(half, w)
}

fn in_rectangle(a: u32, b: u32, w: Vector) -> bool
    ensures { result ≡ in_rectangle a b (vector_at w) }
{
    w.x.unsigned_abs() <= a as u64 && w.y.unsigned_abs() <= b as u64
}

// `w` from the middle, which the ends of the middle line lie `e` to either side of
fn in_lying(e: u32, b: Half, w: Vector) -> bool
    requires { (e ≤ 5000) × (unsigned_abs w.x ≤ 1500000) }
    ensures { result ≡ in_lying e b.ticks (vector_at w) }
{
    let side = e as i64;
    let from_right = Vector {
        x: w.x - side,
        y: w.y,
    };
    let from_left = Vector {
        x: w.x + side,
        y: w.y,
    };
    in_rectangle(e, b.ticks, w) || is_near(b, from_right) || is_near(b, from_left)
}

fn in_obround(a: Half, b: Half, w: Vector) -> bool
    requires { (unsigned_abs w.x ≤ 1500000) × (unsigned_abs w.y ≤ 1500000) }
    ensures { result ≡ in_obround a.ticks b.ticks (vector_at w) }
{
    if b.ticks <= a.ticks {
        in_lying(a.ticks - b.ticks, b, w)
    } else {
        in_lying(b.ticks - a.ticks, a, Vector { x: w.y, y: w.x })
    }
}

/// The box about a place, `a` to either side and `b` up and down.
pub fn box_about(q: Place, a: Reach, b: Reach) -> Bounds
    ensures { result ≡ box_about (place_at q) a.ticks b.ticks }
{
    let a = a.ticks as i32;
    let b = b.ticks as i32;
    Bounds {
        left: q.x - a,
        right: q.x + a,
        bottom: q.y - b,
        top: q.y + b,
    }
}

impl Shape for Circle {
    ghost covered = { λ s. circle_at (place_at s.place) s.half.ticks };

    ghost boxed = { λ s. box_about (place_at s.place) s.half.ticks s.half.ticks };

    #[tactic(auto, unfolding(crate::specs::Flashes::circle_at))]
    fn covers(&self, p: Point) -> bool {
        in_circle(self.half, self.place.way_to(p))
    }

    fn bounds(&self) -> Bounds {
        box_about(self.place, self.half.into(), self.half.into())
    }
}

impl Shape for Rectangle {
    ghost covered = { λ s. rectangle_at (place_at s.place) s.a.ticks s.b.ticks };

    ghost boxed = { λ s. box_about (place_at s.place) s.a.ticks s.b.ticks };

    #[tactic(auto, unfolding(crate::specs::Flashes::rectangle_at))]
    fn covers(&self, p: Point) -> bool {
        in_rectangle(self.a.ticks, self.b.ticks, self.place.way_to(p))
    }

    fn bounds(&self) -> Bounds {
        box_about(self.place, self.a.into(), self.b.into())
    }
}

// the box of an obround is that of its rectangle: one line in each
impl Shape for Obround {
    ghost covered = { λ s. obround_at (place_at s.place) s.a.ticks s.b.ticks };

    ghost boxed = { λ s. box_about (place_at s.place) s.a.ticks s.b.ticks };

    #[tactic(auto, unfolding(crate::specs::Flashes::obround_at))]
    fn covers(&self, p: Point) -> bool {
        in_obround(self.a, self.b, self.place.way_to(p))
    }

    fn bounds(&self) -> Bounds {
        let Obround { place, a, b } = *self;
        box_about(place, a.into(), b.into())
    }
}
