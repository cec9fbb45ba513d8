use plane::points::{Half, Place};

/// A straight stroke.
#[derive(Clone, Copy, PartialEq, Eq, Debug)]
pub struct Stroke {
    pub start: Place,
    pub end: Place,
    pub half: Half,
}

/// A stroke along an arc about `centre`. Its sense is a flag, since it has the same parts either way.
#[derive(Clone, Copy, PartialEq, Eq, Debug)]
pub struct ArcStroke {
    pub centre: Place,
    pub start: Place,
    pub end: Place,
    pub half: Half,
    pub clockwise: bool,
}
