// Flashes and strokes.
ghost use Rattle.plane.specs.Points.{file_centre_at, file_point_at};
ghost use Rattle.records.specs.Records.{seen_aperture, seen_figure, seen_outline};
ghost use Rattle.rules.specs.Measures.{ruled, seen_both, seen_half};
ghost use Rattle.rules.specs.Rules.{arc_to, centre_of, draws, flash_of, flashes, mode_wanted, pen_of, selection as chosen, straight_to, stroke_drawn, stroke_half, stroke_in};
ghost use Rattle.rules.specs.States.{seen_decided, seen_state};
ghost use Rattle.std.specs.Prelude.{◌≡◌, map};

use crate::arcs::{arc_fits, is_short_stroke};
use crate::decision::Desk;
use crate::measures::{Offset, Shift, Target, Written};
use crate::rule::Rule;
use crate::state::{Decision, State};
use forms::Mode;
use plane::points::{FileCentre, FilePoint, Half};
use records::kinds::{Figure, Mirror, Outline};

// What strokes are drawn with.
#[derive(Clone, Copy)]
struct Pen {
    mode: Mode,
    half: Half,
}

// What a flash of the aperture with this number shows.
fn flash_of(mirror: Mirror, at: FilePoint, number: usize, figure: Figure) -> Outline
    ensures { seen_outline result ≡ flash_of mirror (file_point_at at) (number, seen_figure figure) }
{
    match figure {
        Figure::Circle { half } => Outline::Circle { at, half },
        Figure::Rectangle { a, b } => Outline::Rectangle { at, a, b },
        Figure::Obround { a, b } => Outline::Obround { at, a, b },
        Figure::Block { .. } => Outline::Block { number, at, mirror },
    }
}

// Only a circle draws strokes.
fn stroke_half(figure: Figure) -> Result<Half, Rule>
    ensures { ruled seen_half result ≡ stroke_half (seen_figure figure) }
{
    match figure {
        Figure::Circle { half } => Ok(half),
        _ => Err(Rule::NotRound),
    }
}

// An arc's centre lies at its start and (I, J), a missing I or J being 0.
fn centre_of(from: FilePoint, by: Shift) -> FileCentre
    ensures { file_centre_at result ≡ centre_of (file_point_at from) (seen_both by) }
{
    let i = by.x.unwrap_or(Offset { ticks: 0 });
    let j = by.y.unwrap_or(Offset { ticks: 0 });
    FileCentre {
        x: from.x + i.ticks,
        y: from.y + j.ticks,
    }
}

impl Pen {
    fn straight(self, from: FilePoint, to: FilePoint) -> Result<Outline, Rule>
        ensures { ruled seen_outline result ≡ straight_to (file_point_at from) (file_point_at to) (seen_half self.half) }
    {
        if !is_short_stroke(from, to) {
            return Err(Rule::Long);
        }
        Ok(Outline::Stroke {
            from,
            to,
            half: self.half,
        })
    }

    // start, end and centre stay three: each caller has them apart
    fn arc(
        self,
        from: FilePoint,
        to: FilePoint,
        centre: FileCentre,
        clockwise: bool,
    ) -> Result<Outline, Rule>
        ensures { ruled seen_outline result ≡ arc_to (file_point_at from) (file_point_at to) (file_centre_at centre) clockwise (seen_half self.half) }
    {
        if !arc_fits(centre, from, to) {
            return Err(Rule::Arc);
        }
        Ok(Outline::Arc {
            from,
            to,
            centre,
            clockwise,
            half: self.half,
        })
    }

    // A stroke by the mode in force.
    fn stroke(self, from: FilePoint, to: FilePoint, centre: FileCentre) -> Result<Outline, Rule>
        ensures { ruled seen_outline result ≡ stroke_in (self.mode, seen_half self.half) (file_point_at from) (file_point_at to) (file_centre_at centre) }
    {
        match self.mode {
            Mode::Linear => self.straight(from, to),
            Mode::Clockwise => self.arc(from, to, centre, true),
            Mode::Counterclockwise => self.arc(from, to, centre, false),
        }
    }
}

impl State {
    // A mode is wanted, and G75 for an arc.
    fn wanted_mode(self) -> Result<Mode, Rule>
        ensures { ruled (λ m. m) result ≡ mode_wanted self.arcs self.mode }
    {
        match self.mode {
            Some(mode) if self.arcs || mode == Mode::Linear => Ok(mode),
            _ => Err(Rule::Absent),
        }
    }
}

impl Desk<'_> {
    // The number and the figure of the selected aperture.
    fn selection(&self) -> Result<(usize, Figure), Rule>
        ensures { ruled (λ a. (a.0, seen_figure a.1)) result ≡ chosen (map seen_aperture self.now.apertures.now) self.now.state.aperture }
    {
        let number = self.state.aperture.ok_or(Rule::Absent)?;
        let aperture = self.apertures.get(number).ok_or(Rule::Absent)?;
        Ok((number, aperture.figure))
    }

    // D03.
    pub(crate) fn flash(&self, to: Written) -> Result<Decision, Rule>
        ensures { seen_decided result ≡ flashes (seen_state self.now.state) (map seen_aperture self.now.apertures.now) to.x to.y }
    {
        let p = self.state.point_of(to)?;
        let (number, figure) = self.selection()?;
        Ok(
            self.state
                .draw_at(p, flash_of(self.state.mirror, p, number, figure)),
        )
    }

    // What strokes are drawn with.
    fn pen(&self) -> Result<Pen, Rule>
        ensures { ruled (λ p. (p.mode, seen_half p.half)) result ≡ pen_of (map seen_aperture self.now.apertures.now) self.now.state.aperture self.now.state.arcs self.now.state.mode }
    {
        let (_, figure) = self.selection()?;
        let mode = self.state.wanted_mode()?;
        let half = stroke_half(figure)?;
        Ok(Pen { mode, half })
    }

    // D01 draws a stroke from the current point.
    fn draw_stroke(&self, to: Target, by: Shift) -> Result<Decision, Rule>
        ensures { seen_decided result ≡ stroke_drawn (seen_state self.now.state) (map seen_aperture self.now.apertures.now) (seen_both to) (seen_both by) }
    {
        let (from, end) = self.state.ends_of(to)?;
        let pen = self.pen()?;
        let outline = pen.stroke(from, end, centre_of(from, by))?;
        Ok(self.state.draw_at(end, outline))
    }

    // D01 draws a stroke, or in a region a piece.
    pub(crate) fn draw(&self, to: Written, by: Written) -> Result<Decision, Rule>
        ensures { seen_decided result ≡ draws (seen_state self.now.state) (map seen_aperture self.now.apertures.now) to.x to.y by.x by.y }
    {
        let scale = self.state.scale();
        let to = scale.given_both(to)?;
        let by = scale.given_both(by)?;
        if self.state.region.is_outside() {
            self.draw_stroke(to, by)
        } else {
            self.state.draw_piece(to)
        }
    }
}
