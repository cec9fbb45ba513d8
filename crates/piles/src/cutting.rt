// Cutting a window out of a film, and the film that it is.
ghost use Rattle.std.specs.Prelude.{◌≡◌, ◌-◌, ◌*◌, ◌≤◌, true, pos, negsuc, ◌+ℤ◌, ◌≤ℤ◌};
ghost use Rattle.film.specs.Made.{frame_of, window_on};
ghost use Rattle.piles.specs.Piles.{cut_frame, cut_out, beside_cut};
ghost use Rattle.piles.specs.Cutting.{Fitted, CutMade};

use crate::cutout::CutOut;
use film::fault::FilmFault;
use film::film::Film;
use film::numbers::Numbers;
use film::refused::Refused;
use film::span::Span;
use film::window::Window;

// The window, or the whole film where it does not lie on it.
fn fitting(n: Numbers, v: Window) -> Window
    ensures { Fitted (frame_of n) v result }
{
    if n.has(v) {
        return v;
    }
    n.whole()
}

// The place n pixels on from `o`.
fn shifted(o: i32, pitch: u32, n: u32) -> i32
    requires { (pitch ≤ 64) × ((n ≤ 30000) × ((negsuc 30063 ≤ℤ o) × (o ≤ℤ pos 90000))) }
    ensures { result ≡ o +ℤ pos (pitch * n) }
{
    o + (pitch * n) as i32
}

// How many rows lie below the window.
fn rows_below(n: Numbers, v: Window) -> u32
    requires { window_on (frame_of n) v ≡ true }
    ensures { result ≡ n.height - v.y - v.height }
{
    n.height - v.y - v.height
}

// The numbers of a window of a film.
fn cut_numbers(n: Numbers, v: Window) -> Numbers
    requires { window_on (frame_of n) v ≡ true }
    ensures { frame_of result ≡ cut_frame v (frame_of n) }
{
    let ox = shifted(n.ox, n.pitch, v.x);
    let oy = shifted(n.oy, n.pitch, rows_below(n, v));
    Numbers {
        width: v.width,
        height: v.height,
        pitch: n.pitch,
        ox,
        oy,
    }
}

impl<F: Film> CutOut<F> {
    // The window of a film, or the film again with the fault.
    pub fn new(below: F, window: Window) -> Result<CutOut<F>, Refused<F>>
        ensures { CutMade (F.meaning below) below window result }
    {
        if below.numbers().has(window) {
            Ok(CutOut { below, window })
        } else {
            Err(Refused {
                given: below,
                fault: FilmFault::Window,
            })
        }
    }

    pub fn into_below(self) -> F
        ensures { result ≡ self.below }
    {
        self.below
    }

    fn fitted_window(&self) -> Window
        ensures { Fitted (F.meaning self.now.below).frame self.now.window result }
    {
        fitting(self.below.numbers(), self.window)
    }
}

impl<F: Film> Film for CutOut<F> {
    ghost meaning = { λ f. cut_out f.window (F.Film.meaning f.below) };

    ghost beside = { λ f. beside_cut f.window (F.Film.meaning f.below) (F.Film.beside f.below) };

    fn numbers(&self) -> Numbers {
        let n = self.below.numbers();
        cut_numbers(n, fitting(n, self.window))
    }

    // here and below the window tells its size by itself: Numbers of it would be made at each pixel
    fn read(&self, col: u32, row: u32) -> Result<bool, FilmFault> {
        let v = self.fitted_window();
        if col >= v.width || row >= v.height {
            return Err(FilmFault::Off);
        }
        self.below.read(v.x + col, v.y + row)
    }

    fn write_span(&mut self, span: Span, dark: bool) -> Result<(), FilmFault> {
        let v = self.fitted_window();
        if span.row >= v.height || span.first > span.end || span.end > v.width {
            return Err(FilmFault::Off);
        }
        let below = Span {
            row: v.y + span.row,
            first: v.x + span.first,
            end: v.x + span.end,
        };
        self.below.write_span(below, dark)
    }
}
