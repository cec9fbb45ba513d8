use plane::points::FilePoint;

/// A straight piece of a contour, from where the one before it ended to `end`.
#[derive(Clone, Copy, PartialEq, Eq, Debug)]
pub struct Piece {
    pub end: FilePoint,
}
