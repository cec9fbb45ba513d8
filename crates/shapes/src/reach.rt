ghost use Rattle.std.specs.Prelude.{◌≡◌, ◌≤◌};

use plane::points::Half;

/// How far a shape comes from its place on an axis, 0 to 3,005,000 ticks.
#[derive(Clone, Copy, PartialEq, Eq, Debug)]
pub struct Reach {
    pub ticks: u32,
    ghost within: { ticks ≤ 3005000 },
}

impl From<Half> for Reach {
    ghost from_gives = { λ half r. r.ticks ≡ half.ticks };

    fn from(half: Half) -> Reach {
        Reach { ticks: half.ticks }
    }
}
