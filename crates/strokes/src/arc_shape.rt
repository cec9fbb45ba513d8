ghost use Rattle.std.specs.Prelude.{◌≡◌, ◌+◌};
ghost use Rattle.plane.specs.Plane.{way};
ghost use Rattle.plane.specs.Points.{place_at, point_at, vector_at};
ghost use Rattle.strokes.specs.Arcs.{in_turn, in_sector, in_sweep, in_ring, in_ring_of, arc_at, reach_of, arc_box};

use crate::measures::wide_product;
use crate::strokes::ArcStroke;
use plane::points::{Bounds, Half, Place, Point, Vector};
use shapes::flash_shapes::{box_about, in_circle};
use shapes::reach::Reach;
use shapes::shape::Shape;

fn in_turn(u: Vector, v: Vector, t: Vector) -> bool
    ensures { result ≡ in_turn (vector_at u) (vector_at v) (vector_at t) }
{
    if u.cross(v) >= 0 {
        u.cross(t) >= 0 && t.cross(v) >= 0
    } else {
        !(v.cross(t) > 0 && t.cross(u) > 0)
    }
}

fn in_sector(c: Place, s: Place, e: Place, p: Point) -> bool
    ensures { result ≡ in_sector (place_at c) (place_at s) (place_at e) (point_at p) }
{
    s == e || in_turn(c.way_to(s), c.way_to(e), c.way_to(p))
}

// the outer edge holds, and the inner
#[tactic(auto, unfolding(crate::specs::Arcs::in_ring))]
fn edges_hold(half: Half, n: i64, k: i64) -> bool
    ensures { result ≡ in_ring half.ticks n k }
{
    let hh = half.squared();
    let close = wide_product(k, k) <= wide_product(4 * hh, n);
    (k <= 0 || close) && (n <= hh || k >= 0 || close)
}

impl ArcStroke {
    fn in_sweep(&self, p: Point) -> bool
        ensures { result ≡ in_sweep self.now.clockwise (place_at self.now.centre) (place_at self.now.start) (place_at self.now.end) (point_at p) }
    {
        if self.clockwise {
            in_sector(self.centre, self.end, self.start, p)
        } else {
            in_sector(self.centre, self.start, self.end, p)
        }
    }

    // the ring about the centre whose middle line goes through the start
    fn in_ring(&self, p: Point) -> bool
        ensures { result ≡ in_ring_of self.now.half.ticks (place_at self.now.centre) (place_at self.now.start) (point_at p) }
    {
        let n = self.centre.way_to(self.start).norm();
        let k = self.centre.way_to(p).norm() - n - self.half.squared();
        edges_hold(self.half, n, k)
    }

    // how far it comes from the centre on either axis
    fn reach(&self) -> Reach
        ensures { result.ticks ≡ reach_of (way (place_at self.now.centre) (place_at self.now.start)) (way (place_at self.now.centre) (place_at self.now.end)) + self.now.half.ticks }
    {
        let radius = self.centre.way_to(self.start).norm().unsigned_abs().isqrt();
        let to_end = self.centre.way_to(self.end);
        let middle = radius.max(to_end.x.unsigned_abs().max(to_end.y.unsigned_abs()));
        Reach {
            ticks: middle as u32 + self.half.ticks,
        }
    }
}

impl Shape for ArcStroke {
    ghost covered = { λ s. arc_at s.half.ticks s.clockwise (place_at s.centre) (place_at s.start) (place_at s.end) };

    ghost boxed = { λ s. arc_box s.half.ticks (place_at s.centre) (place_at s.start) (place_at s.end) };

    // asked at every pixel of its box: in the loop, what is of the arc alone is worked out once
    #[inline(always)]
    #[tactic(auto, unfolding(crate::specs::Arcs::arc_at))]
    fn covers(&self, p: Point) -> bool {
        self.half.ticks > 0
            && (in_circle(self.half, self.start.way_to(p))
                || in_circle(self.half, self.end.way_to(p))
                || self.in_sweep(p) && self.in_ring(p))
    }

    fn bounds(&self) -> Bounds {
        let reach = self.reach();
        box_about(self.centre, reach, reach)
    }
}
