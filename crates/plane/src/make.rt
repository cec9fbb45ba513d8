ghost use Rattle.std.specs.Prelude.{◌≡◌, min};
ghost use Rattle.plane.specs.Points.{made, made_half, seen_spot, seen_half};

use crate::points::{Half, Spot};

impl<const LIMIT: u32> Spot<LIMIT> {
    /// The point, or nothing past the limit. (Here and below no `then_some`, which would make it before the test.)
    pub fn new(x: i32, y: i32) -> Option<Spot<LIMIT>>
        ensures { seen_spot result ≡ made (min LIMIT 1000000) x y }
    {
        let limit = LIMIT.min(1_000_000);
        if x.unsigned_abs() <= limit && y.unsigned_abs() <= limit {
            Some(Spot { x, y })
        } else {
            None
        }
    }
}

impl Half {
    /// The half, or nothing past 5,000.
    pub fn new(ticks: u32) -> Option<Half>
        ensures { seen_half result ≡ made_half ticks }
    {
        if ticks <= 5_000 {
            Some(Half { ticks })
        } else {
            None
        }
    }
}
