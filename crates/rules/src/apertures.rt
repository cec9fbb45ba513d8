// Apertures: definition and selection, blocks, step and repeat.
ghost use Rattle.records.specs.Records.{seen_aperture, seen_figure};
ghost use Rattle.rules.specs.Measures.{ruled};
ghost use Rattle.rules.specs.Rules.{block_opened, circle_defined, closed_only, defines, leaves, number_of, obround_defined, rectangle_defined, repeat_of, repeat_opened, repeats, scale_of, selected};
ghost use Rattle.rules.specs.States.{seen_decided, seen_state};
ghost use Rattle.std.specs.Prelude.{◌≡◌, map};

use crate::decision::Desk;
use crate::rule::Rule;
use crate::settings::set;
use crate::state::{Decision, Effect, State};
use records::kinds::{Aperture, Figure, Owner, Repeat};

// The aperture that is selected is defined, and the block that it is is not open.
fn closed_only(owner: Owner, number: Option<usize>) -> Result<usize, Rule>
    ensures { ruled (λ n. n) result ≡ closed_only owner number }
{
    match number {
        Some(n) if owner != Owner::Block(n) => Ok(n),
        _ => Err(Rule::Code),
    }
}

// A repeat of 1 to 100 times, that does not go past 60,000 ticks.
fn may_repeat(times: u32, step: u64) -> bool
    ensures { result ≡ repeats times step }
{
    1 <= times && times <= 100 && (times as u64 - 1).saturating_mul(step) <= 60_000
}

impl Desk<'_> {
    // The number of the aperture with this code.
    fn number_of(&self, code: u32) -> Option<usize>
        ensures { result ≡ number_of code (map seen_aperture self.now.apertures.now) }
    {
        self.apertures
            .iter()
            .position(|aperture| aperture.code == code)
    }

    // The aperture is taken where its code is new, and `next` is the state behind it.
    fn define(&self, next: State, code: u32, figure: Figure) -> Result<Decision, Rule>
        ensures { seen_decided result ≡ leaves (seen_state next) (defines code (map seen_aperture self.now.apertures.now) (seen_figure figure)) }
    {
        if self.number_of(code).is_some() {
            return Err(Rule::Code);
        }
        Ok(Decision {
            state: next,
            effect: Effect::Aperture(Aperture { code, figure }),
        })
    }

    pub(crate) fn circle(&self, code: u32, diameter: u64) -> Result<Decision, Rule>
        ensures { seen_decided result ≡ leaves (seen_state self.now.state) (circle_defined (scale_of (seen_state self.now.state)) (map seen_aperture self.now.apertures.now) code diameter) }
    {
        let half = self.state.scale().round_half(diameter)?;
        self.define(self.state, code, Figure::Circle { half })
    }

    // This and the next differ in their figure alone: a function of both, or of their two halves, has a
    // longer contract than the lines that it saves.
    pub(crate) fn rectangle(&self, code: u32, width: u64, height: u64) -> Result<Decision, Rule>
        ensures { seen_decided result ≡ leaves (seen_state self.now.state) (rectangle_defined (scale_of (seen_state self.now.state)) (map seen_aperture self.now.apertures.now) code width height) }
    {
        let scale = self.state.scale();
        let a = scale.side_half(width)?;
        let b = scale.side_half(height)?;
        self.define(self.state, code, Figure::Rectangle { a, b })
    }

    pub(crate) fn obround(&self, code: u32, width: u64, height: u64) -> Result<Decision, Rule>
        ensures { seen_decided result ≡ leaves (seen_state self.now.state) (obround_defined (scale_of (seen_state self.now.state)) (map seen_aperture self.now.apertures.now) code width height) }
    {
        let scale = self.state.scale();
        let a = scale.side_half(width)?;
        let b = scale.side_half(height)?;
        self.define(self.state, code, Figure::Obround { a, b })
    }

    pub(crate) fn open_block(&self, code: u32) -> Result<Decision, Rule>
        ensures { seen_decided result ≡ block_opened (seen_state self.now.state) (map seen_aperture self.now.apertures.now) self.now.objects code }
    {
        let next = self.state.with_owner(Owner::Block(self.apertures.len()));
        let first = self.objects;
        self.define(next, code, Figure::Block { first })
    }

    // A step and repeat opens, by the counts and the steps that are written.
    pub(crate) fn open_repeat(
        &self,
        columns: u32,
        rows: u32,
        step_x: u64,
        step_y: u64,
    ) -> Result<Decision, Rule>
        ensures { seen_decided result ≡ repeat_opened (seen_state self.now.state) (repeat_of (scale_of (seen_state self.now.state)) self.now.objects columns rows step_x step_y) }
    {
        let scale = self.state.scale();
        let step_x = scale.step(step_x);
        let step_y = scale.step(step_y);
        if !(may_repeat(columns, step_x) && may_repeat(rows, step_y)) {
            return Err(Rule::Range);
        }
        let repeat = Repeat {
            first: self.objects,
            columns,
            rows,
            step_x,
            step_y,
        };
        set(self.state.with_owner(Owner::Repeat(repeat)))
    }

    pub(crate) fn select(&self, code: u32) -> Result<Decision, Rule>
        ensures { seen_decided result ≡ selected (seen_state self.now.state) (map seen_aperture self.now.apertures.now) code }
    {
        let number = closed_only(self.state.owner, self.number_of(code))?;
        set(self.state.with_aperture(number))
    }
}
