// How far strokes go, and whether the ends of an arc fit its centre.
ghost use Rattle.std.specs.Prelude.{◌≡◌, nat_le, ◌-ℤ◌, unsigned_abs};
ghost use Rattle.plane.specs.Plane.{way};
ghost use Rattle.plane.specs.Points.{file_centre_at, file_point_at, vector_at};
ghost use Rattle.rules.specs.Rules.{arc_fits, nearly_round, same_direction, short_stroke};

use plane::points::{FileCentre, FilePoint, Vector};

fn is_nearly_round(u: Vector, v: Vector) -> bool
    ensures { result ≡ nearly_round (vector_at u) (vector_at v) }
{
    u.norm().abs_diff(v.norm()) <= 8 * (u.x.unsigned_abs() + u.y.unsigned_abs() + 1)
}

fn is_same_direction(u: Vector, v: Vector) -> bool
    ensures { result ≡ same_direction (vector_at u) (vector_at v) }
{
    u.cross(v) == 0 && u.dot(v) > 0
}

#[tactic(auto, unfolding(crate::specs::Rules::arc_fits))]
fn fits(u: Vector, v: Vector) -> bool
    ensures { result ≡ arc_fits (vector_at u) (vector_at v) }
{
    u != Vector { x: 0, y: 0 } && is_nearly_round(u, v) && (u == v || !is_same_direction(u, v))
}

// The ends of an arc fit its centre. (Ends and centre stay three: each caller has them apart.)
pub(crate) fn arc_fits(centre: FileCentre, from: FilePoint, to: FilePoint) -> bool
    ensures { result ≡ arc_fits (way (file_centre_at centre) (file_point_at from)) (way (file_centre_at centre) (file_point_at to)) }
{
    fits(centre.way_to(from), centre.way_to(to))
}

fn is_short(from: i32, to: i32) -> bool
    ensures { result ≡ nat_le (unsigned_abs (to -ℤ from)) 30000 }
{
    to.abs_diff(from) <= 30_000
}

// A straight stroke does not go too far.
#[tactic(auto, unfolding(crate::specs::Rules::short_stroke))]
pub(crate) fn is_short_stroke(from: FilePoint, to: FilePoint) -> bool
    ensures { result ≡ short_stroke (file_point_at from) (file_point_at to) }
{
    is_short(from.x, to.x) && is_short(from.y, to.y)
}
