// Plotting a file on a film.
// Film, window, file and slots are all that a plot is of, and go through three functions alone.
ghost use Rattle.std.specs.Prelude.{◌≡◌, ◌≤◌, true, map, length, take, is_err};
ghost use Rattle.drawing.specs.Answers.{told_plot};
ghost use Rattle.drawing.specs.Slots.{SameSlots};
ghost use Rattle.film.specs.Made.{window_on};
ghost use Rattle.history.specs.Calls.{slots_of};
ghost use Rattle.history.specs.History.{Plotted};
ghost use Rattle.history.specs.Verdicts.{entire, judged, verdict};
ghost use Rattle.laid.specs.Covered.{LaidOn};
ghost use Rattle.laid.specs.Laid.{laid_objects};
ghost use Rattle.plot.specs.Reads.{Recorded};
ghost use Rattle.plot.specs.Requests.{tables_in, told_counts};
ghost use Rattle.records.specs.Records.{seen_aperture, seen_object, seen_piece};

use crate::requests::Counts;
use drawing::fault::{Drawing, PlotFault};
use drawing::reading::{Slots, read_drawing};
use film::fault::FilmFault;
use film::film::Film;
use film::window::Window;
use laid::drawing::Records;
use laying::layers::lay;

// Takes the records of a file into the slots.
fn read_records(file: &[u8], slots: &mut Slots<'_>) -> Result<Drawing, PlotFault>
    ensures recorded { Recorded (judged (slots_of (tables_in slots.old)) file.now) (tables_in slots.old) (told_plot result) (tables_in slots.new) }
    ensures lent { SameSlots slots.old slots.new }
{
    read_drawing(file, slots)
}

// The same for a plot within a window: a bad window is refused before the file is looked at.
fn read_within<F: Film>(
    film: &F,
    window: Window,
    file: &[u8],
    slots: &mut Slots<'_>,
) -> Result<Drawing, PlotFault>
    ensures recorded { Recorded (verdict (F.meaning film.now).frame (slots_of (tables_in slots.old)) window file.now) (tables_in slots.old) (told_plot result) (tables_in slots.new) }
    ensures lent { SameSlots slots.old slots.new }
{
    if !film.numbers().has(window) {
        return Err(PlotFault::Film(FilmFault::Window));
    }
    read_records(file, slots)
}

// Lays the records of a drawing, which stand at the front of the slots, within a window of the film.
fn lay_records<F: Film>(film: &mut F, window: Window, drawing: Drawing, slots: &Slots<'_>)
    requires { (window_on (F.meaning film.old).frame window ≡ true) × ((drawing.apertures ≤ length slots.now.apertures.now) × ((drawing.objects ≤ length slots.now.objects.now) × (drawing.pieces ≤ length slots.now.pieces.now))) }
    ensures laid { LaidOn (F.meaning film.old) window (laid_objects (map seen_aperture (take drawing.apertures slots.now.apertures.now)) (map seen_object (take drawing.objects slots.now.objects.now)) (map seen_piece (take drawing.pieces slots.now.pieces.now))) (F.meaning film.new) }
    ensures beside { F.beside film.new ≡ F.beside film.old }
{
    let records = Records {
        apertures: &slots.apertures[..drawing.apertures],
        objects: &slots.objects[..drawing.objects],
        pieces: &slots.pieces[..drawing.pieces],
    };
    // The window is on the film, so that this is not refused.
    let _ = lay(film, window, records);
}

/// Plots a file within a window of the film: its objects are laid in file order, each on the pixels
/// of the window whose centres it covers. The slots hold the file's records afterwards. Answers how
/// many objects the file draws and how many were laid. A refused plot alters no pixel.
pub fn window_plot<F: Film>(
    film: &mut F,
    window: Window,
    file: &[u8],
    slots: &mut Slots<'_>,
) -> Result<Counts, PlotFault>
    ensures plotted { Plotted (F.meaning film.old) (tables_in slots.old) window file.now (told_counts result) (tables_in slots.new) (F.meaning film.new) }
    ensures refused_unchanged { is_err result ≡ true → film.new ≡ film.old }
    ensures beside { F.beside film.new ≡ F.beside film.old }
    ensures lent { SameSlots slots.old slots.new }
{
    let drawing = read_within(film, window, file, slots)?;
    lay_records(film, window, drawing, slots);
    Ok(drawing.into())
}

// The window of the whole film.
pub(crate) fn whole<F: Film>(film: &F) -> Window
    ensures value { result ≡ entire (F.meaning film.now).frame }
    ensures fits { window_on (F.meaning film.now).frame result ≡ true }
{
    let n = film.numbers();
    n.whole()
}

/// Plots a file on the whole film.
pub fn plot<F: Film>(film: &mut F, file: &[u8], slots: &mut Slots<'_>) -> Result<Counts, PlotFault>
    ensures plotted { Plotted (F.meaning film.old) (tables_in slots.old) (entire (F.meaning film.old).frame) file.now (told_counts result) (tables_in slots.new) (F.meaning film.new) }
    ensures refused_unchanged { is_err result ≡ true → film.new ≡ film.old }
    ensures beside { F.beside film.new ≡ F.beside film.old }
    ensures lent { SameSlots slots.old slots.new }
{
    let window = whole(film);
    window_plot(film, window, file, slots)
}
