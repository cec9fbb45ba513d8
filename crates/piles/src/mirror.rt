// The film below with left and right exchanged.
ghost use Rattle.std.specs.Prelude.{◌≡◌};
ghost use Rattle.piles.specs.Piles.{mirrored};

use film::fault::FilmFault;
use film::film::Film;
use film::numbers::Numbers;
use film::span::Span;

#[derive(Drop)]
pub struct Mirror<F> {
    pub below: F,
}

impl<F> Mirror<F> {
    pub fn into_below(self) -> F
        ensures { result ≡ self.below }
    {
        self.below
    }
}

impl<F: Film> Film for Mirror<F> {
    ghost meaning = { λ f. mirrored (F.Film.meaning f.below) };

    ghost beside = { λ f. F.Film.beside f.below };

    fn numbers(&self) -> Numbers {
        self.below.numbers()
    }

    // here and below columns alone are tested: the film below tests the row
    fn read(&self, col: u32, row: u32) -> Result<bool, FilmFault> {
        let width = self.below.numbers().width;
        if col >= width {
            return Err(FilmFault::Off);
        }
        self.below.read(width - 1 - col, row)
    }

    fn write_span(&mut self, span: Span, dark: bool) -> Result<(), FilmFault> {
        let width = self.below.numbers().width;
        if span.first > span.end || span.end > width {
            return Err(FilmFault::Off);
        }
        let mirrored = Span {
            row: span.row,
            first: width - span.end,
            end: width - span.first,
        };
        self.below.write_span(mirrored, dark)
    }
}
