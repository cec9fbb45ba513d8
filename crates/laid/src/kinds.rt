// What is laid, and the places of the blocks that it stands in.
// `turn` is a flag and no Option: it says whether the clear flashes around are odd in number.
ghost use Rattle.std.specs.Prelude.{◌≤◌};

use plane::points::{FilePoint, Placing};
use records::kinds::{Mirror, Object};

/// A flash of the block with this number.
#[derive(Clone, Copy)]
pub struct Flash {
    pub number: usize,
    pub at: FilePoint,
    pub mirror: Mirror,
}

/// An object record with where it is laid; `turn` says whether its polarity is turned.
#[derive(Clone, Copy)]
pub struct PlacedObject {
    pub object: Object,
    pub placing: Placing,
    pub turn: bool,
}

/// How far a copy of a step and repeat is moved. Points, ways and shifts are types of their own, since
/// their limits differ.
#[derive(Clone, Copy)]
pub struct Shift {
    pub x: u32,
    pub y: u32,
    ghost within: { (x ≤ 60000) × (y ≤ 60000) },
}

/// A block that is being laid: the number of its next object record, its own number, and where and
/// how its objects are laid.
#[derive(Clone, Copy)]
pub struct Frame {
    pub next: usize,
    pub block: usize,
    pub placing: Placing,
    pub turn: bool,
    ghost low: { block ≤ 128 },
}
