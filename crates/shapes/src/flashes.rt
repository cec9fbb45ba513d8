use plane::points::{Half, Place};

/// A circle about `place`.
#[derive(Clone, Copy, PartialEq, Eq, Debug)]
pub struct Circle {
    pub place: Place,
    pub half: Half,
}

/// A rectangle about `place`, `a` to either side and `b` up and down.
#[derive(Clone, Copy, PartialEq, Eq, Debug)]
pub struct Rectangle {
    pub place: Place,
    pub a: Half,
    pub b: Half,
}

/// An obround about `place`: the rectangle of these halves with its shorter sides made round.
// a type beside the rectangle, since it covers other points
#[derive(Clone, Copy, PartialEq, Eq, Debug)]
pub struct Obround {
    pub place: Place,
    pub a: Half,
    pub b: Half,
}
