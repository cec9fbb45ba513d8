// Refusals in words.
ghost use Rattle.commands.specs.Files.{command_told};
ghost use Rattle.rules.specs.Numbers.{rule_number};
ghost use Rattle.drawing.specs.Answers.{plot_told};
ghost use Rattle.drawing.specs.Faults.{drawing_told};
ghost use Rattle.film.specs.Faults.{film_told};
ghost use Rattle.wording.specs.Refusals.{told};
ghost use Rattle.words.specs.Words.{fault, text_told};
ghost use Rattle.std.specs.Prelude.{◌≡◌};

use commands::CommandFault;
use drawing::fault::{DrawingFault, PlotFault};
use film::fault::FilmFault;
use rules::rule::Rule;
use std::fmt;
use words::TextFault;

/// A refusal's number, place and reason, and how many commands were taken before it.
#[derive(Clone, Copy)]
pub struct Refusal {
    // as it is printed, and as docs/REFUSALS.md lists it; place and taken too, 0 where the call is refused
    pub number: u32,
    pub place: usize,
    pub taken: usize,
    pub reason: &'static str,
}

impl From<TextFault> for Refusal {
    ghost from_gives = { λ t r. told r ≡ text_told t };

    fn from(fault: TextFault) -> Refusal {
        match fault {
            TextFault::Byte { place, taken } => Refusal {
                number: 10,
                place,
                taken,
                reason: "this byte may not stand here",
            },
            TextFault::End { place, taken } => Refusal {
                number: 11,
                place,
                taken,
                reason: "the file ends inside a command or before M02",
            },
        }
    }
}

impl From<CommandFault> for Refusal {
    ghost from_gives = { λ c r. told r ≡ command_told c };

    fn from(fault: CommandFault) -> Refusal {
        match fault {
            CommandFault::Text(fault) => Refusal::from(fault),
            CommandFault::Form { place, taken } => Refusal {
                number: 20,
                place,
                taken,
                reason: "the command has none of the forms that this plotter knows",
            },
        }
    }
}

// A rule's number, and the reason where it is broken.
fn explain_rule(rule: Rule) -> (u32, &'static str)
    ensures { result.0 ≡ rule_number rule }
{
    match rule {
        Rule::Misplaced => (
            21,
            "the command may not stand here, or has I or J in G01 mode",
        ),
        Rule::Range => (22, "a number of the command is outside its range"),
        Rule::Code => (
            23,
            "the aperture code is defined twice, or selected before it is defined and closed",
        ),
        Rule::Absent => (
            24,
            "the command wants a current point, an aperture, a mode or G75 that has not come",
        ),
        Rule::NotRound => (25, "a stroke is drawn with another aperture than a circle"),
        Rule::Arc => (26, "the ends of the arc do not fit its centre"),
        Rule::Long => (
            27,
            "the straight stroke is longer than 30,000 ticks in x or y",
        ),
        Rule::Contour => (
            28,
            "the contour is not begun by D02, or does not end on its first point",
        ),
        Rule::Full => (
            29,
            "a table of apertures, objects or contour pieces is full",
        ),
        Rule::Weight => (
            30,
            "blocks are flashed more than 8 deep, or more than 1,000,000 objects are laid",
        ),
    }
}

impl From<DrawingFault> for Refusal {
    ghost from_gives = { λ d r. told r ≡ drawing_told d };

    fn from(fault: DrawingFault) -> Refusal {
        match fault {
            DrawingFault::Command(fault) => Refusal::from(fault),
            DrawingFault::Broken { rule, place, taken } => {
                let (number, reason) = explain_rule(rule);
                Refusal {
                    number,
                    place,
                    taken,
                    reason,
                }
            }
        }
    }
}

// The number of a film's refusal, and its reason.
fn explain_film(fault: FilmFault) -> (u32, &'static str)
    ensures { result.0 ≡ (film_told fault).number }
{
    match fault {
        FilmFault::Limits => (1, "the film's numbers are outside their limits"),
        FilmFault::Memory => (2, "the memory for the film is too short"),
        FilmFault::Window => (3, "the window or cut-out is empty or past the film's edge"),
        FilmFault::Off => (4, "the pixel is off the film"),
        FilmFault::Short => (5, "the output is too short"),
    }
}

// A film's refusal has no place in a file.
impl From<FilmFault> for Refusal {
    ghost from_gives = { λ f r. told r ≡ fault (film_told f).number (film_told f).place 0 };

    fn from(fault: FilmFault) -> Refusal {
        let (number, reason) = explain_film(fault);
        Refusal {
            number,
            place: 0,
            taken: 0,
            reason,
        }
    }
}

impl From<PlotFault> for Refusal {
    ghost from_gives = { λ p r. told r ≡ plot_told p };

    fn from(fault: PlotFault) -> Refusal {
        match fault {
            PlotFault::Film(fault) => Refusal::from(fault),
            PlotFault::TooLong => Refusal {
                number: 7,
                place: 0,
                taken: 0,
                reason: "the file is longer than 1,048,576 bytes",
            },
            PlotFault::Command(fault) => Refusal::from(fault),
        }
    }
}

/// A refusal by its numbers, as a job prints it.
#[derive(Clone, Copy)]
pub struct Refused(pub Refusal);

impl fmt::Display for Refused {
    fn fmt<W: fmt::Write>(&self, f: &mut fmt::Formatter<W>) -> fmt::Result {
        let Refusal {
            number,
            place,
            taken,
            ..
        } = self.0;
        write!(f, "refused {number} place {place} taken {taken}")
    }
}

/// A refusal with its reason, for a person.
#[derive(Clone, Copy)]
pub struct Reason(pub Refusal);

impl fmt::Display for Reason {
    fn fmt<W: fmt::Write>(&self, f: &mut fmt::Formatter<W>) -> fmt::Result {
        let Refusal { number, reason, .. } = self.0;
        write!(f, "refused with {number}: {reason}")
    }
}
