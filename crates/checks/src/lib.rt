// Checks: worked examples of the rules, of the definitions and of the code.
//
// `specs/Samples.antt` lists the examples as computed truth values over the very definitions that the contracts of the
// other crates cite; `samples_hold` states that each of them is true, and one proof settles the whole list. The lists of
// the single layers stand beside it: `specs/TickSamples.antt` for ticks, `specs/ShapeSamples.antt` for what shapes cover.
//
// The tests run the code itself on the same examples, and at the ends of the ranges: the farthest points and places and
// the greatest halves. They stand here, since a crate with tests is proved twice.

#![tactic(auto)]

ghost use Rattle.std.specs.Prelude.{◌≡◌, true};
ghost use Rattle.checks.specs.Samples.{all_true, samples};

#[cfg(test)]
mod shape_tests;
#[cfg(test)]
mod table_tests;
#[cfg(test)]
mod tick_tests;
#[cfg(test)]
mod weight_tests;

/// All worked examples hold, by the definitions.
pub fn samples_hold() -> u8
    ensures { all_true samples ≡ true }
{
    0
}
