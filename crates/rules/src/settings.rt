// The state with another part.
ghost use Rattle.plane.specs.Points.{file_point_at};
ghost use Rattle.rules.specs.Rules.{scale_of};
ghost use Rattle.rules.specs.Settings.{with_aperture, with_contour, with_owner, with_point, without_region};
ghost use Rattle.rules.specs.States.{nothing, seen_decided, seen_state};
ghost use Rattle.std.specs.Prelude.{◌≡◌, Ok};

use crate::measures::Scale;
use crate::rule::Rule;
use crate::state::{Decision, Effect, Region, State};
use plane::points::FilePoint;
use records::kinds::Owner;
use ticks::{Decimals, Unit};

// The command draws nothing, and `next` is the state behind it.
pub(crate) fn set(next: State) -> Result<Decision, Rule>
    ensures { seen_decided result ≡ Ok (seen_state next, nothing) }
{
    Ok(Decision {
        state: next,
        effect: Effect::Nothing,
    })
}

impl State {
    // The unit and the decimals in force. (Where one is absent, no command with a number may stand.)
    pub(crate) fn scale(self) -> Scale
        ensures { result ≡ scale_of (seen_state self) }
    {
        Scale {
            unit: self.unit.unwrap_or(Unit::Millimetre),
            decimals: self.format.map_or(Decimals::Four, |f| f.decimals),
        }
    }

    // each part of the state is set under its own name
    pub(crate) fn with_aperture(self, number: usize) -> State
        ensures { seen_state result ≡ with_aperture number (seen_state self) }
    {
        State {
            aperture: Some(number),
            ..self
        }
    }

    pub(crate) fn with_point(self, p: FilePoint) -> State
        ensures { seen_state result ≡ with_point (file_point_at p) (seen_state self) }
    {
        State {
            point: Some(p),
            ..self
        }
    }

    // AB and SR open or close: the current point is absent then, and all other state stays.
    pub(crate) fn with_owner(self, owner: Owner) -> State
        ensures { seen_state result ≡ with_owner owner (seen_state self) }
    {
        State {
            owner,
            point: None,
            ..self
        }
    }

    // A region closes, and the current point is absent then.
    pub(crate) fn without_region(self) -> State
        ensures { seen_state result ≡ without_region (seen_state self) }
    {
        State {
            point: None,
            region: Region::Outside,
            ..self
        }
    }

    // A contour begins, its first piece to have the number `first`.
    pub(crate) fn with_contour(self, start: FilePoint, first: usize) -> State
        ensures { seen_state result ≡ with_contour (file_point_at start) first (seen_state self) }
    {
        State {
            point: Some(start),
            region: Region::Begun { start, first },
            ..self
        }
    }
}
