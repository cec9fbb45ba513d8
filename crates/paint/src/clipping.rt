// What a shape's box reaches of a window, and the centres of pixels.
ghost use Rattle.std.specs.Prelude.{◌≡◌, ◌+◌, ◌<◌, ◌≤◌};
ghost use Rattle.film.specs.Frame.{centre_x, centre_y};
ghost use Rattle.film.specs.Made.{frame_of};
ghost use Rattle.paint.specs.Painted.{Clipped};

use crate::area::Area;
use crate::axis::Axis;
use film::numbers::Numbers;
use film::window::Window;
use plane::points::{Bounds, Point};

// The centre of column `col`, row `row`.
pub(crate) fn centre(n: Numbers, col: u32, row: u32) -> Point
    requires { (col < n.width) × (row < n.height) }
    ensures x { result.x ≡ centre_x (frame_of n) col }
    ensures y { result.y ≡ centre_y (frame_of n) row }
{
    Point {
        x: Axis::columns(n).middle(col),
        y: Axis::rows(n).middle(n.height - 1 - row),
    }
}

// What a box reaches of a window.
pub(crate) fn clip(n: Numbers, v: Window, b: Bounds) -> Area
    requires { (v.x + v.width ≤ n.width) × (v.y + v.height ≤ n.height) }
    ensures { Clipped (frame_of n) v b result }
{
    let columns = Axis::columns(n);
    let rows = Axis::rows(n);
    let left = columns.before(b.left);
    let right = columns.upto(b.right);
    let high = rows.upto(b.top);
    let low = rows.before(b.bottom);
    let first = v.x.max(left);
    let end = first.max((v.x + v.width).min(right));
    let top = v.y.max(n.height - high);
    let foot = top.max((v.y + v.height).min(n.height - low));
    Area {
        first,
        end,
        top,
        foot,
    }
}
