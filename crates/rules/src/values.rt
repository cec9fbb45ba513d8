// The numbers of a command in ticks, and their ranges.
ghost use Rattle.rules.specs.Measures.{ruled, seen_both, seen_half, seen_within, written_in};
ghost use Rattle.rules.specs.Rules.{given, given_both, half_of, round_half, side_half, step_of, ticks_of, within};
ghost use Rattle.std.specs.Option as options;
ghost use Rattle.std.specs.Prelude.{◌≡◌};

use crate::measures::{Pair, Scale, Within, Written};
use crate::rule::Rule;
use forms::Coordinate;
use plane::points::Half;
use ticks::{half_ticks, step_ticks, to_ticks};

// Two values, as far as they are written.
pub(crate) fn values_of(x: Option<Coordinate<'_>>, y: Option<Coordinate<'_>>) -> Written
    ensures first { result.x ≡ written_in x.entry }
    ensures second { result.y ≡ written_in y.entry }
{
    Pair {
        x: x.map(|c| c.value),
        y: y.map(|c| c.value),
    }
}

// Ticks that go at most LIMIT either way.
fn within<const LIMIT: u16>(ticks: i64) -> Result<Within<LIMIT>, Rule>
    ensures { ruled seen_within result ≡ within LIMIT ticks }
{
    if ticks.unsigned_abs() > u64::from(LIMIT) {
        return Err(Rule::Range);
    }
    Ok(Within {
        ticks: ticks as i32,
    })
}

fn half_in(ticks: u64) -> Result<Half, Rule>
    ensures { ruled seen_half result ≡ round_half ticks }
{
    if ticks > 5_000 {
        return Err(Rule::Range);
    }
    Ok(Half {
        ticks: ticks as u32,
    })
}

impl Scale {
    #[tactic(auto, unfolding(crate::specs::Rules::ticks_of))]
    fn ticks(self, value: i64) -> i64
        ensures { result ≡ ticks_of self value }
    {
        to_ticks(value, self.decimals, self.unit)
    }

    // Half of a size in ticks. (This and the next are one line each over the two roundings of ticks.)
    #[tactic(auto, unfolding(crate::specs::Rules::half_of))]
    fn half(self, millionths: u64) -> u64
        ensures { result ≡ half_of self millionths }
    {
        half_ticks(millionths, self.unit)
    }

    // A repeat step in ticks.
    #[tactic(auto, unfolding(crate::specs::Rules::step_of))]
    pub(crate) fn step(self, millionths: u64) -> u64
        ensures { result ≡ step_of self millionths }
    {
        step_ticks(millionths, self.unit)
    }

    // The half of a circle's diameter.
    pub(crate) fn round_half(self, diameter: u64) -> Result<Half, Rule>
        ensures { ruled seen_half result ≡ round_half (half_of self diameter) }
    {
        half_in(self.half(diameter))
    }

    // The half of a side of a rectangle or an obround.
    pub(crate) fn side_half(self, side: u64) -> Result<Half, Rule>
        ensures { ruled seen_half result ≡ side_half (half_of self side) }
    {
        let half = self.half(side);
        if half == 0 {
            return Err(Rule::Range);
        }
        half_in(half)
    }

    // A value in ticks, if it is written.
    fn given<const LIMIT: u16>(self, value: Option<i64>) -> Result<Option<Within<LIMIT>>, Rule>
        ensures { ruled (options.option_map seen_within) result ≡ given LIMIT self value }
    {
        // no `map`: a closure whose answer names LIMIT is not proved
        match value {
            Some(v) => Ok(Some(within(self.ticks(v))?)),
            None => Ok(None),
        }
    }

    // Two values in ticks, as far as they are written.
    pub(crate) fn given_both<const LIMIT: u16>(
        self,
        written: Written,
    ) -> Result<Pair<Within<LIMIT>>, Rule>
        ensures { ruled seen_both result ≡ given_both LIMIT self written.x written.y }
    {
        let x = self.given(written.x)?;
        let y = self.given(written.y)?;
        Ok(Pair { x, y })
    }
}
