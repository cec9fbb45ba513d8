// Points, and the contours of a region.
ghost use Rattle.plane.specs.Points.{file_point_at};
ghost use Rattle.records.specs.Records.{seen_outline};
ghost use Rattle.rules.specs.Measures.{ruled, seen_both};
ghost use Rattle.rules.specs.Rules.{arrived, contour_ended, drawn, drawn_at, ends_of, moves, piece_drawn, point_by, point_of, region_closed, scale_of, stands_at};
ghost use Rattle.rules.specs.States.{seen_decided, seen_effect, seen_region, seen_state};
ghost use Rattle.std.specs.Prelude.{◌≡◌, Ok};

use crate::decision::Desk;
use crate::measures::{Reach, Target, Written};
use crate::rule::Rule;
use crate::state::{Decision, Effect, Region, State};
use contour::pieces::Piece;
use plane::points::FilePoint;
use records::kinds::{Object, Outline};

impl State {
    // A missing X or Y takes over that of the current point.
    fn point_by(self, to: Target) -> Result<FilePoint, Rule>
        ensures { ruled file_point_at result ≡ point_by (seen_state self).point (seen_both to) }
    {
        let x = to.x.or(self.point.map(|p| Reach { ticks: p.x }));
        let y = to.y.or(self.point.map(|p| Reach { ticks: p.y }));
        Ok(FilePoint {
            x: x.ok_or(Rule::Absent)?.ticks,
            y: y.ok_or(Rule::Absent)?.ticks,
        })
    }

    // The point of an operation.
    pub(crate) fn point_of(self, to: Written) -> Result<FilePoint, Rule>
        ensures { ruled file_point_at result ≡ point_of (scale_of (seen_state self)) (seen_state self).point to.x to.y }
    {
        let to = self.scale().given_both(to)?;
        self.point_by(to)
    }

    // A draw goes from the current point to its own.
    pub(crate) fn ends_of(self, to: Target) -> Result<(FilePoint, FilePoint), Rule>
        ensures { ruled (λ e. (file_point_at e.0, file_point_at e.1)) result ≡ ends_of (seen_state self).point (seen_both to) }
    {
        let from = self.point.ok_or(Rule::Absent)?;
        Ok((from, self.point_by(to)?))
    }

    // The current point is this one.
    fn stands_at(self, at: FilePoint) -> bool
        ensures { result ≡ stands_at (seen_state self).point (file_point_at at) }
    {
        self.point == Some(at)
    }

    // An object with the polarity in force, of what is open.
    fn object(self, outline: Outline) -> Effect
        ensures { seen_effect result ≡ drawn (seen_state self) (seen_outline outline) }
    {
        Effect::Object(Object {
            polarity: self.polarity,
            owner: self.owner,
            outline,
        })
    }

    // The object is drawn, and the current point is `p` then.
    pub(crate) fn draw_at(self, p: FilePoint, outline: Outline) -> Decision
        ensures { seen_decided (Ok result) ≡ drawn_at (seen_state self) (file_point_at p) (Ok (seen_outline outline)) }
    {
        Decision {
            state: self.with_point(p),
            effect: self.object(outline),
        }
    }

    // D01 in a region adds a piece from the current point.
    pub(crate) fn draw_piece(self, to: Target) -> Result<Decision, Rule>
        ensures { seen_decided result ≡ piece_drawn (seen_state self) (seen_both to) }
    {
        let (_, end) = self.ends_of(to)?;
        if !self.region.is_begun() {
            return Err(Rule::Contour);
        }
        Ok(Decision {
            state: self.with_point(end),
            effect: Effect::Piece(Piece { end }),
        })
    }
}

impl Desk<'_> {
    // The contour begun ends: with a piece it is an object, and must be closed.
    fn end_contour(&self) -> Result<Effect, Rule>
        ensures { ruled seen_effect result ≡ contour_ended (seen_state self.now.state) self.now.pieces (seen_region self.now.state.region) }
    {
        match self.state.region {
            Region::Begun { start, first } if first < self.pieces => {
                if !self.state.stands_at(start) {
                    return Err(Rule::Contour);
                }
                let count = self.pieces - first;
                Ok(
                    self.state.object(Outline::Contour {
                        start,
                        first,
                        count,
                    }),
                )
            }
            _ => Ok(Effect::Nothing),
        }
    }

    // G37.
    pub(crate) fn close_region(&self) -> Result<Decision, Rule>
        ensures { seen_decided result ≡ region_closed (seen_state self.now.state) self.now.pieces }
    {
        let effect = self.end_contour()?;
        Ok(Decision {
            state: self.state.without_region(),
            effect,
        })
    }

    // The current point is `p`; in a region a contour begins there.
    fn arrive(&self, p: FilePoint) -> State
        ensures { seen_state result ≡ arrived (seen_state self.now.state) self.now.pieces (file_point_at p) }
    {
        if self.state.region.is_outside() {
            self.state.with_point(p)
        } else {
            self.state.with_contour(p, self.pieces)
        }
    }

    // D02.
    pub(crate) fn move_to(&self, to: Written) -> Result<Decision, Rule>
        ensures { seen_decided result ≡ moves (seen_state self.now.state) self.now.pieces to.x to.y }
    {
        let p = self.state.point_of(to)?;
        let effect = self.end_contour()?;
        Ok(Decision {
            state: self.arrive(p),
            effect,
        })
    }
}
