// Making a whole film clear.
ghost use Rattle.history.specs.Coverings.{Shows, blanking};
ghost use Rattle.std.specs.Prelude.{◌≡◌, [], ◌∷◌};

use film::film::Film;

/// Makes every pixel of the film clear.
pub fn blank<F: Film>(film: &mut F)
    ensures shown { Shows (F.meaning film.old) (blanking ∷ []) (F.meaning film.new) }
    ensures beside { F.beside film.new ≡ F.beside film.old }
{
    let n = film.numbers();
    for row in 0..n.height {
        // The row is on the film, so that this is not refused.
        let _ = film.write_span(n.whole_row(row), false);
    }
}
