ghost use Rattle.std.specs.Prelude.{◌≡◌, ◌+◌, ◌≤◌};
ghost use Rattle.film.specs.Made.{frame_of};

use film::film::Film;
use film::numbers::Numbers;
use film::window::Window;

/// A window that does not go past the edge of its film.
#[derive(Drop)]
pub struct Pane<'a, F: Film> {
    pub(crate) film: &'a mut F,
    pub(crate) numbers: Numbers,
    pub(crate) window: Window,
    ghost told: { frame_of numbers ≡ (F.meaning film.now).frame },
    ghost across: { window.x + window.width ≤ numbers.width },
    ghost down: { window.y + window.height ≤ numbers.height },
}
