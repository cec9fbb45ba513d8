ghost use Rattle.std.specs.Prelude.{◌≡◌};
ghost use Rattle.plane.specs.Points.{place_at, point_at};
ghost use Rattle.contour.specs.Chain.{left_of, counts, single, grow};

use plane::points::{Bounds, Place, Point};

fn left_of(lo: Place, hi: Place, p: Point) -> bool
    ensures { result ≡ left_of (place_at lo) (place_at hi) (point_at p) }
{
    lo.way_to(hi).cross(lo.way_to(p)) > 0
}

pub(crate) fn piece_counts(s: Place, e: Place, p: Point) -> bool
    ensures { result ≡ counts (place_at s) (place_at e) (point_at p) }
{
    if s.y <= p.y {
        e.y > p.y && left_of(s, e, p)
    } else {
        e.y <= p.y && left_of(e, s, p)
    }
}

pub(crate) fn box_of(s: Place) -> Bounds
    ensures { result ≡ single (place_at s) }
{
    Bounds {
        left: s.x,
        right: s.x,
        bottom: s.y,
        top: s.y,
    }
}

pub(crate) fn grown(b: Bounds, s: Place) -> Bounds
    ensures { result ≡ grow b (place_at s) }
{
    Bounds {
        left: s.x.min(b.left),
        right: s.x.max(b.right),
        bottom: s.y.min(b.bottom),
        top: s.y.max(b.top),
    }
}
