ghost use Rattle.std.specs.Prelude.{◌+◌, ◌*◌, ◌≤◌, min, unsigned_abs};

/// A whole point within ±`LIMIT`, and within ±1,000,000 as all points.
#[derive(Clone, Copy, PartialEq, Eq, Debug)]
pub struct Spot<const LIMIT: u32> {
    pub x: i32,
    pub y: i32,
    ghost within: { (unsigned_abs x ≤ min LIMIT 1000000) × (unsigned_abs y ≤ min LIMIT 1000000) },
}

/// Any point that a shape is asked about.
pub type Point = Spot<1_000_000>;

/// Where placing can bring a point of a file.
pub type Place = Spot<345_000>;

/// A point as a file has it.
pub type FilePoint = Spot<30_000>;

/// The centre of an arc as a file has it.
pub type FileCentre = Spot<45_000>;

/// Half of a size, 0 to 5,000 ticks.
#[derive(Clone, Copy, PartialEq, Eq, Debug)]
pub struct Half {
    pub ticks: u32,
    ghost within: { ticks ≤ 5000 },
}

/// The points from `left` to `right` and from `bottom` to `top`, ends included.
#[derive(Clone, Copy, PartialEq, Eq, Debug)]
pub struct Bounds {
    pub left: i32,
    pub right: i32,
    pub bottom: i32,
    pub top: i32,
}

/// The way from one point to another, within ±2,000,000.
#[derive(Clone, Copy, PartialEq, Eq, Debug)]
pub struct Vector {
    pub x: i64,
    pub y: i64,
    ghost within: { (unsigned_abs x ≤ 2000000) × (unsigned_abs y ≤ 2000000) },
}

/// Where a block lays the points of a file: mirrored, then moved. `level` counts the blocks around.
/// A flag for each axis, since each is mirrored or not whatever the other.
#[derive(Clone, Copy, PartialEq, Eq, Debug)]
pub struct Placing {
    pub mirror_x: bool,
    pub mirror_y: bool,
    pub dx: i32,
    pub dy: i32,
    pub level: u8,
    ghost deep: { level ≤ 8 },
    ghost far: { (unsigned_abs dx ≤ 60000 + 30000 * level) × (unsigned_abs dy ≤ 60000 + 30000 * level) },
}
