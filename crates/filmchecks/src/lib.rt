// Worked examples of whole files, read and refused, and of a film from its file to the bytes of its sheet.
//
// `specs/FilmSamples.antt` lists them as computed truth values over the very definitions that the contracts of the other
// crates cite; `film_samples_hold` states that each of them is true, and one proof settles the whole list.
#![tactic(auto)]

ghost use Rattle.std.specs.Prelude.{◌≡◌, true};
ghost use Rattle.filmchecks.specs.FilmSamples.{all_true, film_samples};

/// All worked examples hold, by the definitions.
pub fn film_samples_hold() -> u8
    ensures { all_true film_samples ≡ true }
{
    0
}
