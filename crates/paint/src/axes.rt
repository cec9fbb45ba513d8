// Where the steps of an axis lie.
ghost use Rattle.std.specs.Prelude.{◌≡◌, ℕ, ◌<◌, ◌≤◌, pos, ◌-ℤ◌, ◌≤ℤ◌, ◌<ℤ◌, unsigned_abs};
ghost use Rattle.paint.specs.Axes.{middle_of};

use crate::axis::Axis;
use film::numbers::Numbers;

fn ahead(origin: i32, edge: i32) -> u64
    requires { origin ≤ℤ edge }
    ensures { pos result ≡ edge -ℤ origin }
{
    (edge as i64 - origin as i64) as u64
}

// The columns and the rows take other numbers of the film, so that each has a constructor.
impl Axis {
    pub(crate) fn columns(n: Numbers) -> Axis
        ensures origin { result.origin ≡ n.ox }
        ensures pitch { result.pitch ≡ n.pitch }
        ensures count { result.count ≡ n.width }
    {
        Axis {
            origin: n.ox,
            pitch: n.pitch,
            count: n.width,
        }
    }

    pub(crate) fn rows(n: Numbers) -> Axis
        ensures origin { result.origin ≡ n.oy }
        ensures pitch { result.pitch ≡ n.pitch }
        ensures count { result.count ≡ n.height }
    {
        Axis {
            origin: n.oy,
            pitch: n.pitch,
            count: n.height,
        }
    }

    // The middle of a step.
    pub(crate) fn middle(self, step: u32) -> i32
        requires { step < self.count }
        ensures value { result ≡ middle_of self.origin self.pitch step }
        ensures near { unsigned_abs result ≤ 1000000 }
    {
        self.origin + (self.pitch * step + self.pitch / 2) as i32
    }

    // Every step below the answer has its middle before the edge.
    pub(crate) fn before(self, edge: i32) -> u32
        ensures few { result ≤ self.count }
        ensures before { (k : ℕ) → k < result → middle_of self.origin self.pitch k <ℤ edge }
    {
        if edge <= self.origin {
            return 0;
        }
        let steps = ahead(self.origin, edge) / self.pitch as u64;
        steps.min(self.count as u64) as u32
    }

    // Every step from the answer on has its middle past the edge.
    pub(crate) fn upto(self, edge: i32) -> u32
        ensures few { result ≤ self.count }
        ensures past { (k : ℕ) → result ≤ k → k < self.count → edge <ℤ middle_of self.origin self.pitch k }
    {
        if edge < self.origin {
            return 0;
        }
        let steps = ahead(self.origin, edge) / self.pitch as u64;
        (steps + 1).min(self.count as u64) as u32
    }
}
