ghost use Rattle.std.specs.Prelude.{◌≡◌};
ghost use Rattle.plane.specs.Plane.{way};
ghost use Rattle.plane.specs.Points.{place_at, vector_at};
ghost use Rattle.strokes.specs.Strokes.{in_band, stroke_at, stroke_box};

use crate::measures::wide_product;
use crate::strokes::Stroke;
use plane::points::{Bounds, Point, Vector};
use shapes::flash_shapes::in_circle;
use shapes::shape::Shape;

impl Stroke {
    // `w` from the start lies beside the way to the end
    fn in_band(&self, w: Vector) -> bool
        ensures { result ≡ in_band self.now.half.ticks (way (place_at self.now.start) (place_at self.now.end)) (vector_at w) }
    {
        let d = self.start.way_to(self.end);
        let n = d.norm();
        let across = d.cross(w);
        (0..=n).contains(&d.dot(w))
            && wide_product(across, across) <= wide_product(self.half.squared(), n)
    }
}

impl Shape for Stroke {
    ghost covered = { λ s. stroke_at s.half.ticks (place_at s.start) (place_at s.end) };

    ghost boxed = { λ s. stroke_box s.half.ticks (place_at s.start) (place_at s.end) };

    #[tactic(auto, unfolding(crate::specs::Strokes::stroke_at))]
    fn covers(&self, p: Point) -> bool {
        let w = self.start.way_to(p);
        self.half.ticks > 0
            && (in_circle(self.half, w)
                || in_circle(self.half, self.end.way_to(p))
                || self.start != self.end && self.in_band(w))
    }

    fn bounds(&self) -> Bounds {
        let Stroke { start, end, half } = *self;
        let r = half.ticks as i32;
        Bounds {
            left: start.x.min(end.x) - r,
            right: start.x.max(end.x) + r,
            bottom: start.y.min(end.y) - r,
            top: start.y.max(end.y) + r,
        }
    }
}
