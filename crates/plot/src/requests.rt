// What is asked of a film in a list, and what is answered.
ghost use Rattle.drawing.specs.Answers.{told_plot};
ghost use Rattle.film.specs.Faults.{answered};
ghost use Rattle.history.specs.Calls.{said_by};
ghost use Rattle.history.specs.History.{said_of};
ghost use Rattle.plot.specs.Requests.{seen_answer, told_counts};
ghost use Rattle.std.specs.Prelude.{◌≡◌};

use drawing::fault::{Drawing, PlotFault};
use film::fault::FilmFault;
use film::window::Window;

/// One request of a list.
#[derive(Clone, Copy, PartialEq, Eq, Debug)]
pub enum Request<'a> {
    /// plot a file on the whole film
    Plot { file: &'a [u8] },
    /// plot it within a window
    Window { window: Window, file: &'a [u8] },
    /// make every pixel clear
    Blank,
    /// tell whether a pixel is dark
    Read { column: u32, row: u32 },
}

/// How many objects a file draws, and how many were laid. (An answer names them itself, beside its other
/// cases.)
#[derive(Clone, Copy, PartialEq, Eq, Debug)]
pub struct Counts {
    pub drawn: usize,
    pub laid: u32,
}

impl From<Drawing> for Counts {
    ghost from_gives = { λ d c. (c.drawn ≡ d.objects) × (c.laid ≡ d.laid) };

    fn from(drawing: Drawing) -> Counts {
        Counts {
            drawn: drawing.objects,
            laid: drawing.laid,
        }
    }
}

/// The answer to a request.
#[derive(Clone, Copy, PartialEq, Eq, Debug)]
pub enum Answer {
    /// how many objects the file draws, and how many were laid
    Plotted { drawn: usize, laid: u32 },
    Refused(PlotFault),
    Blanked,
    /// whether the pixel is dark
    Pixel(bool),
}

// The answer to a plot.
impl From<Result<Counts, PlotFault>> for Answer {
    ghost from_gives = { λ r a. seen_answer a ≡ said_by (told_counts r) };

    fn from(plotted: Result<Counts, PlotFault>) -> Answer {
        match plotted {
            Ok(Counts { drawn, laid }) => Answer::Plotted { drawn, laid },
            Err(fault) => Answer::Refused(fault),
        }
    }
}

// The answer to a reading.
impl From<Result<bool, FilmFault>> for Answer {
    ghost from_gives = { λ r a. seen_answer a ≡ said_of (answered r) };

    fn from(pixel: Result<bool, FilmFault>) -> Answer {
        match pixel {
            Ok(dark) => Answer::Pixel(dark),
            Err(fault) => Answer::Refused(PlotFault::Film(fault)),
        }
    }
}
