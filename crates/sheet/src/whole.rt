// A whole film as a sheet.
ghost use Rattle.std.specs.Prelude.{◌≡◌, true, length, is_ok};
ghost use Rattle.sheet.specs.Faults.{told};
ghost use Rattle.sheet.specs.Whole.{film_answer, film_output};
ghost use Rattle.sheet.specs.Reading.{ReadsBack};

use crate::fault::SheetFault;
use crate::open::OpenSheet;
use crate::size::Size;
use film::film::Film;

// Writes a film as a sheet to the front of the output, and answers how many bytes it takes.
pub fn write_film<F: Film>(film: &F, out: &mut [u8]) -> Result<usize, SheetFault>
    ensures answer { told result ≡ film_answer (F.meaning film.now) (length out.old) }
    ensures output { out.new ≡ film_output (F.meaning film.now) out.old }
    ensures reads_back { is_ok result ≡ true → ReadsBack out.new (F.meaning film.now) }
{
    let n = film.numbers();
    let mut sheet = OpenSheet::open(Size::from(n), out)?;
    for row in 0..n.height {
        // Every row is on the film and of the sheet's width, so that none is refused.
        let _ = sheet.write_row(film, row, out);
    }
    // a match, since an open sheet cannot be let go
    match sheet.close() {
        Ok(closed) => Ok(closed.length),
        Err(_) => unreachable(),
    }
}
