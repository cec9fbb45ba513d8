// The blocks that flashes open.
ghost use Rattle.std.specs.Prelude.{◌≡◌, ◌<◌, ◌≤◌, not, map, if◌then◌else◌, Some, nat_lt, slice_index_or};
ghost use Rattle.laid.specs.Laid.{is_dark};
ghost use Rattle.laid.specs.Stacks.{EnteredAt, FlashOf, OpenedBy, apertures_of, first_in, objects_of, placed_in};
ghost use Rattle.records.specs.Records.{seen_figure, seen_outline};
ghost use Rattle.records.specs.Weights.{figure_at, none};

use crate::drawing::Drawing;
use crate::kinds::{Flash, Frame};
use forms::Polarity;
use records::kinds::{Figure, Object};

fn first_in(figure: Figure) -> Option<usize>
    ensures { result ≡ first_in (seen_figure figure) }
{
    match figure {
        Figure::Block { first } => Some(first),
        _ => None,
    }
}

impl<'a> Drawing<'a> {
    // The first object of a block.
    fn first_of(&self, number: usize) -> Option<usize>
        ensures { result ≡ first_in (figure_at (apertures_of self.now) number) }
    {
        let aperture = self.records.apertures.get(number)?;
        first_in(aperture.figure)
    }

    fn lays_any(&self, number: usize) -> bool
        ensures { result ≡ nat_lt 0 (slice_index_or self.now.weights number none).laid }
    {
        self.weights
            .get(number)
            .is_some_and(|weight| weight.laid > 0)
    }

    // The first object of a block that is flashed in block `within`; none if it lays nothing there.
    fn entered(&self, number: usize, within: usize) -> Option<usize>
        requires { within ≤ 128 }
        ensures { EnteredAt (apertures_of self.now) (objects_of self.now) within number result }
    {
        if number < within && self.lays_any(number) {
            self.first_of(number)
        } else {
            None
        }
    }
}

// A clear flash turns the polarity of what it lays.
fn turned_by(turn: bool, polarity: Polarity) -> bool
    ensures { result ≡ (if is_dark polarity then turn else not turn) }
{
    match polarity {
        Polarity::Dark => turn,
        Polarity::Clear => !turn,
    }
}

impl Frame {
    // The frame of the block that an object of this one flashes; none if the block lays nothing there.
    pub(crate) fn opened(self, drawing: &Drawing, object: Object, flash: Flash) -> Option<Frame>
        requires level { self.placing.level < 8 }
        requires flash { FlashOf (seen_outline object.outline) (Some flash) }
        ensures { OpenedBy (apertures_of drawing.now) (objects_of drawing.now) self.block (placed_in self object) result }
    {
        let next = drawing.entered(flash.number, self.block)?;
        Some(Frame {
            next,
            block: flash.number,
            placing: flash.within(self.placing),
            turn: turned_by(self.turn, object.polarity),
        })
    }
}
