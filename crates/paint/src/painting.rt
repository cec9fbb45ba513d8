// Painting one shape within a window.
ghost use Rattle.std.specs.Prelude.{◌≡◌};
ghost use Rattle.paint.specs.Painted.{PaintOutcome};

use crate::pane::Pane;
use film::fault::FilmFault;
use film::film::Film;
use film::window::Window;
use shapes::shape::Shape;

/// Gives every pixel of the window whose centre the shape covers the colour `dark`, and leaves all
/// others as they are. A window that is empty or past the edge is refused.
pub fn paint<F: Film, S: Shape>(
    film: &mut F,
    window: Window,
    shape: &S,
    dark: bool,
) -> Result<(), FilmFault>
    ensures outcome { PaintOutcome (F.meaning film.old) window (S.covered shape.now) dark result (F.meaning film.new) }
    ensures beside { F.beside film.new ≡ F.beside film.old }
{
    // the test stands here: a `Result` that holds a pane is not covered by the check
    if !film.numbers().has(window) {
        return Err(FilmFault::Window);
    }
    let mut pane = Pane::new(film, window);
    pane.paint(shape, dark);
    Ok(())
}
