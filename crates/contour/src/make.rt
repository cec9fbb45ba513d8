ghost use Rattle.std.specs.Prelude.{◌≡◌};
ghost use Rattle.plane.specs.Points.{file_point_at};
ghost use Rattle.contour.specs.Closed.{closed_from};
ghost use Rattle.contour.specs.Made.{seen_contour, made_contour};

use crate::contour::Contour;
use crate::pieces::Piece;
use plane::points::{FilePoint, Placing};

// whether the pieces lead back to where the first begins
fn is_closed(start: FilePoint, pieces: &[Piece]) -> bool
    ensures { result ≡ closed_from (file_point_at start) pieces.now }
{
    pieces.last().is_none_or(|last| last.end == start)
}

impl<'a> Contour<'a> {
    /// The contour, or nothing if it is not closed. (No `then_some`, which would make it before the test.)
    pub fn new(start: FilePoint, pieces: &'a [Piece], placing: Placing) -> Option<Contour<'a>>
        ensures { seen_contour result ≡ made_contour start pieces.now placing }
    {
        if is_closed(start, pieces) {
            Some(Contour {
                start,
                pieces,
                placing,
            })
        } else {
            None
        }
    }
}
