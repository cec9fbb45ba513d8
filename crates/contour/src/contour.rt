ghost use Rattle.std.specs.Prelude.{◌≡◌, true};
ghost use Rattle.plane.specs.Points.{file_point_at};
ghost use Rattle.contour.specs.Closed.{closed_from};

use crate::pieces::Piece;
use plane::points::{FilePoint, Placing};

/// A closed contour: from `start` along the pieces, placed by `placing`.
#[derive(Clone, Copy)]
pub struct Contour<'a> {
    pub start: FilePoint,
    pub pieces: &'a [Piece],
    pub placing: Placing,
    ghost closed: { closed_from (file_point_at start) pieces.now ≡ true },
}
