// Laying one contour.
ghost use Rattle.laid.specs.Laid as laid;
ghost use Rattle.laid.specs.Laid.{closed_only};
ghost use Rattle.laid.specs.Puts.{put_at, seen_placing};
ghost use Rattle.laying.specs.Lays.{Lays, single};
ghost use Rattle.paint.specs.Panes.{seen_pane};
ghost use Rattle.plane.specs.Points.{file_point_at};
ghost use Rattle.records.specs.Records.{seen_piece};
ghost use Rattle.std.specs.Prelude.{◌≡◌, map, take, drop};

use contour::contour::Contour;
use contour::pieces::Piece;
use film::film::Film;
use paint::pane::Pane;
use plane::points::{FilePoint, Placing};

// The pieces of a contour: `count` of them from the one with the number `first` on.
pub(crate) fn part(pieces: &[Piece], first: usize, count: usize) -> &[Piece]
    ensures { map seen_piece result.now ≡ take count (drop first (map seen_piece pieces.now)) }
{
    let rest = pieces.get(first..).unwrap_or(&[]);
    rest.get(..count).unwrap_or(rest)
}

// Lays the contour that goes from `start` along all these pieces.
pub(crate) fn lay_contour<F: Film>(
    pane: &mut Pane<F>,
    placing: Placing,
    pieces: &[Piece],
    start: FilePoint,
    dark: bool,
)
    ensures { Lays (seen_pane pane.old) (single dark (laid.contour (put_at (seen_placing placing) (file_point_at start)) (map (put_at (seen_placing placing)) (closed_only (file_point_at start) (map seen_piece pieces.now))))) (seen_pane pane.new) }
{
    if let Some(contour) = Contour::new(start, pieces, placing) {
        pane.paint(&contour, dark);
    }
}
