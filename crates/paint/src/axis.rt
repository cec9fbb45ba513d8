ghost use Rattle.std.specs.Prelude.{ℕ, ◌*◌, ◌<◌, ◌≤◌, unsigned_abs};
ghost use Rattle.paint.specs.Axes.{middle_of};

// The steps of a film's grid along one axis: its columns from left to right, or its rows from the
// bottom up.
#[derive(Clone, Copy)]
pub(crate) struct Axis {
    pub(crate) origin: i32,
    pub(crate) pitch: u32,
    pub(crate) count: u32,
    ghost least: { 2 ≤ pitch },
    ghost most: { pitch ≤ 64 },
    ghost length: { count * pitch ≤ 60000 },
    ghost near: { (k : ℕ) → k < count → unsigned_abs (middle_of origin pitch k) ≤ 1000000 },
}
