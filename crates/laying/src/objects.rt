// Laying one placed object.
ghost use Rattle.contour.specs.Chain.{differ};
ghost use Rattle.laid.specs.Laid.{is_dark};
ghost use Rattle.laid.specs.Stacks.{lays_one};
ghost use Rattle.laying.specs.Lays.{Lays};
ghost use Rattle.paint.specs.Panes.{seen_pane};
ghost use Rattle.records.specs.Records.{seen_piece};
ghost use Rattle.std.specs.Prelude.{◌≡◌, map};

use crate::contours::{lay_contour, part};
use contour::pieces::Piece;
use film::film::Film;
use forms::Polarity;
use laid::kinds::PlacedObject;
use paint::pane::Pane;
use records::kinds::Outline;
use shapes::flashes::{Circle, Obround, Rectangle};
use strokes::strokes::{ArcStroke, Stroke};

// Whether an object is laid dark: a turn exchanges dark and clear.
fn is_dark(turn: bool, polarity: Polarity) -> bool
    ensures { result ≡ differ turn (is_dark polarity) }
{
    match polarity {
        Polarity::Dark => !turn,
        Polarity::Clear => turn,
    }
}

// Lays one placed object. A flash of a block lays nothing by itself: the walk goes on to its objects.
pub(crate) fn lay_object<F: Film>(pane: &mut Pane<F>, pieces: &[Piece], placed: PlacedObject)
    ensures { Lays (seen_pane pane.old) (lays_one (map seen_piece pieces.now) placed) (seen_pane pane.new) }
{
    let placing = placed.placing;
    let dark = is_dark(placed.turn, placed.object.polarity);
    match placed.object.outline {
        Outline::Circle { at, half } => {
            let place = placing.place(at);
            pane.paint(&Circle { place, half }, dark);
        }
        Outline::Rectangle { at, a, b } => {
            let place = placing.place(at);
            pane.paint(&Rectangle { place, a, b }, dark);
        }
        Outline::Obround { at, a, b } => {
            let place = placing.place(at);
            pane.paint(&Obround { place, a, b }, dark);
        }
        Outline::Stroke { from, to, half } => {
            let start = placing.place(from);
            let end = placing.place(to);
            pane.paint(&Stroke { start, end, half }, dark);
        }
        Outline::Arc {
            from,
            to,
            centre,
            clockwise,
            half,
        } => {
            let arc = ArcStroke {
                centre: placing.place_centre(centre),
                start: placing.place(from),
                end: placing.place(to),
                half,
                // One mirror axis turns the sense of an arc, two do not.
                clockwise: (placing.mirror_x != placing.mirror_y) != clockwise,
            };
            pane.paint(&arc, dark);
        }
        Outline::Contour {
            start,
            first,
            count,
        } => lay_contour(pane, placing, part(pieces, first, count), start, dark),
        Outline::Block { .. } => {}
    }
}
