// Placings, one within another.
ghost use Rattle.std.specs.Prelude.{◌≡◌, ◌+◌, ◌*◌, ◌<◌, ◌≤◌, pos, ◌+ℤ◌, unsigned_abs};
ghost use Rattle.laid.specs.Puts.{composed, flashed_at, seen_placing, shifted};
ghost use Rattle.plane.specs.Placed.{turned};
ghost use Rattle.plane.specs.Points.{file_point_at};

use crate::kinds::{Flash, Shift};
use plane::points::Placing;

// As in plane, of a smaller limit, by which a sum of shifts is known to fit.
fn turn(mirror: bool, z: i32) -> i32
    requires { unsigned_abs z ≤ 30000 }
    ensures value { result ≡ turned mirror z }
    ensures small { unsigned_abs result ≤ 30000 }
{
    if mirror { -z } else { z }
}

// A coordinate of the place of an inner block.
fn inner(mirror: bool, z: i32, d: i32, level: u8) -> i32
    requires { (unsigned_abs z ≤ 30000) × (unsigned_abs d ≤ 60000 + 30000 * level) × (level < 8) }
    ensures value { result ≡ turned mirror z +ℤ d }
    ensures small { unsigned_abs result ≤ 60000 + 30000 * (level + 1) }
{
    turn(mirror, z) + d
}

impl Flash {
    // Where the flashed block lays its objects, within what `outer` places.
    pub(crate) fn within(self, outer: Placing) -> Placing
        requires { outer.level < 8 }
        ensures put { seen_placing result ≡ composed (seen_placing outer) (flashed_at (file_point_at self.at) self.mirror) }
        ensures level { result.level ≡ outer.level + 1 }
    {
        let dx = inner(outer.mirror_x, self.at.x, outer.dx, outer.level);
        let dy = inner(outer.mirror_y, self.at.y, outer.dy, outer.level);
        Placing {
            mirror_x: outer.mirror_x != self.mirror.x,
            mirror_y: outer.mirror_y != self.mirror.y,
            dx,
            dy,
            level: outer.level + 1,
        }
    }
}

impl Shift {
    // Moved by the shift.
    pub(crate) fn placing(self) -> Placing
        ensures put { seen_placing result ≡ shifted self.x self.y }
        ensures level { result.level ≡ 0 }
    {
        Placing {
            mirror_x: false,
            mirror_y: false,
            dx: self.x as i32,
            dy: self.y as i32,
            level: 0,
        }
    }
}
