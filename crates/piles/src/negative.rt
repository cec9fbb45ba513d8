// The film below with dark and clear exchanged.
ghost use Rattle.std.specs.Prelude.{◌≡◌};
ghost use Rattle.piles.specs.Piles.{negated};

use film::fault::FilmFault;
use film::film::Film;
use film::numbers::Numbers;
use film::span::Span;

#[derive(Drop)]
pub struct Negative<F> {
    pub below: F,
}

impl<F> Negative<F> {
    pub fn into_below(self) -> F
        ensures { result ≡ self.below }
    {
        self.below
    }
}

impl<F: Film> Film for Negative<F> {
    ghost meaning = { λ f. negated (F.Film.meaning f.below) };

    ghost beside = { λ f. F.Film.beside f.below };

    fn numbers(&self) -> Numbers {
        self.below.numbers()
    }

    fn read(&self, col: u32, row: u32) -> Result<bool, FilmFault> {
        self.below.read(col, row).map(|dark| !dark)
    }

    fn write_span(&mut self, span: Span, dark: bool) -> Result<(), FilmFault> {
        self.below.write_span(span, !dark)
    }
}
