ghost use Rattle.contour.specs.Placed.{contour_of, box_of};

use crate::chain::{box_of, grown, piece_counts};
use crate::contour::Contour;
use plane::points::{Bounds, Point};
use shapes::shape::Shape;

impl<'a> Shape for Contour<'a> {
    ghost covered = { λ s. contour_of s.start s.pieces.now s.placing };

    ghost boxed = { λ s. box_of s.start s.pieces.now s.placing };

    // whether an odd number of the placed pieces counts
    fn covers(&self, p: Point) -> bool {
        let mut at = self.placing.place(self.start);
        let mut inside = false;
        for piece in self.pieces {
            let end = self.placing.place(piece.end);
            inside ^= piece_counts(at, end, p);
            at = end;
        }
        inside
    }

    fn bounds(&self) -> Bounds {
        self.pieces
            .iter()
            .fold(box_of(self.placing.place(self.start)), |bounds, piece| {
                grown(bounds, self.placing.place(piece.end))
            })
    }
}
