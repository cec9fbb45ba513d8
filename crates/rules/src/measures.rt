// The numbers of a command: as they are written, and in ticks within their ranges.
ghost use Rattle.std.specs.Prelude.{◌≤◌, unsigned_abs};

use ticks::{Decimals, Unit};

/// The unit and the decimals in force.
#[derive(Clone, Copy, PartialEq, Eq, Debug)]
pub struct Scale {
    pub unit: Unit,
    pub decimals: Decimals,
}

/// X and Y, or I and J, as far as they are written.
#[derive(Clone, Copy)]
pub struct Pair<T> {
    pub x: Option<T>,
    pub y: Option<T>,
}

/// Ticks within ±LIMIT.
#[derive(Clone, Copy)]
pub struct Within<const LIMIT: u16> {
    pub ticks: i32,
    ghost within: { unsigned_abs ticks ≤ LIMIT },
}

/// The values of X and Y, or of I and J.
pub type Written = Pair<i64>;

/// An X or Y of a point.
pub type Reach = Within<30_000>;

/// An I or J from the start of an arc to its centre.
pub type Offset = Within<15_000>;

/// X and Y of a point.
pub type Target = Pair<Reach>;

/// I and J of an arc.
pub type Shift = Pair<Offset>;
