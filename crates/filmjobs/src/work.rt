// What is done on a film once it is made: one file plotted, or the steps of a job.
use crate::memory::{Memory, SlotPlan};
use drawing::reading::Slots;
use film::fault::FilmFault;
use film::film::Film;
use film::window::Window;
use plot::exposing::expose;
use plot::requests::{Answer, Request};
use std::fmt;
use terminal::files::{read_file, refuse};
use terminal::sheets::{Measures, put_sheet};
use terminal::stop::{Stop, stop_with};
use wording::refusals::{Reason, Refusal, Refused};

// Work on a film that is still to be made.
pub(crate) trait Work {
    // Tells which film is made, or what is laid over it.
    fn tell<D: fmt::Display + Drop>(&self, rt: &HostRuntime, what: D) -> Result<(), Stop>;

    // Tells that the film or its cut-out is refused.
    fn refuse(&self, rt: &HostRuntime, what: &str, fault: FilmFault) -> Result<(), Stop>;

    // Does the work.
    fn carry_out<F: Film>(&self, rt: &HostRuntime, film: &mut F) -> Result<(), Stop>;
}

// One file to plot for a person, within a window or whole, and where its sheet goes.
#[derive(Clone, Copy)]
pub(crate) struct Single<'a> {
    pub(crate) gerber: &'a str,
    pub(crate) sheet: &'a str,
    pub(crate) window: Option<Window>,
}

// One step of a job.
#[derive(Clone, Copy)]
pub(crate) enum Step<'a> {
    // the whole film, or a window of it
    Plot {
        window: Option<Window>,
        path: &'a str,
    },
    Blank,
    Read {
        column: u32,
        row: u32,
    },
    Sheet(&'a str),
}

// A step and the number of its line in the job.
#[derive(Clone, Copy)]
pub(crate) struct NumberedStep<'a> {
    pub(crate) line: usize,
    pub(crate) step: Step<'a>,
}

// The steps of a job, and the slots that it asks for, if it does.
#[derive(Clone, Copy)]
pub(crate) struct Steps<'s, 'a> {
    pub(crate) slots: Option<SlotPlan>,
    pub(crate) steps: &'s [NumberedStep<'a>],
}

// Makes one request of the film, and answers what it says.
fn ask<F: Film>(
    rt: &HostRuntime,
    film: &mut F,
    slots: &mut Slots<'_>,
    request: Request<'_>,
) -> Result<Answer, Stop> {
    let answers = expose(rt.alloc(), film, slots, &[request])?;
    // one request has one answer
    Ok(answers[0])
}

fn plot_of<'a>(file: &'a [u8], window: Option<Window>) -> Request<'a> {
    match window {
        Some(window) => Request::Window { window, file },
        None => Request::Plot { file },
    }
}

impl Work for Single<'_> {
    fn tell<D: fmt::Display + Drop>(&self, _rt: &HostRuntime, _what: D) -> Result<(), Stop> {
        Ok(())
    }

    fn refuse(&self, rt: &HostRuntime, what: &str, fault: FilmFault) -> Result<(), Stop> {
        stop_with(rt, format_args!("{what} {}", Reason(Refusal::from(fault))))
    }

    // A refusal is told in words, and then no sheet is written.
    fn carry_out<F: Film>(&self, rt: &HostRuntime, film: &mut F) -> Result<(), Stop> {
        let mut memory = Memory::new(rt.alloc(), SlotPlan::FULL)?;
        let mut slots = memory.lend();
        let Single {
            gerber,
            sheet,
            window,
        } = *self;
        let file = read_file(rt, gerber)?;
        match ask(rt, film, &mut slots, plot_of(file.as_slice(), window))? {
            Answer::Plotted { drawn, laid } => println!(rt;
                "{gerber}: {drawn} objects drawn, {laid} laid"
            )?,
            Answer::Refused(fault) => {
                return refuse(rt, gerber, file.as_slice(), fault.into());
            }
            // no plot is answered so
            Answer::Blanked | Answer::Pixel(_) => {}
        }
        let bytes = put_sheet(rt, film, sheet)?;
        println!(rt; "{sheet}: {}, {bytes} bytes", Measures(film.numbers()))?;
        Ok(())
    }
}

// An answer as a job prints it.
#[derive(Clone, Copy)]
struct Answered(Answer);

impl fmt::Display for Answered {
    fn fmt<W: fmt::Write>(&self, f: &mut fmt::Formatter<W>) -> fmt::Result {
        match self.0 {
            Answer::Plotted { drawn, laid } => write!(f, "drawn {drawn} laid {laid}"),
            Answer::Refused(fault) => write!(f, "{}", Refused(Refusal::from(fault))),
            Answer::Blanked => write!(f, "blank"),
            Answer::Pixel(true) => write!(f, "dark"),
            Answer::Pixel(false) => write!(f, "clear"),
        }
    }
}

// Carries out one step of a job, and prints its line.
fn take_step<F: Film>(
    rt: &HostRuntime,
    film: &mut F,
    slots: &mut Slots<'_>,
    step: Step<'_>,
) -> Result<(), Stop> {
    match step {
        Step::Plot { window, path } => {
            let file = read_file(rt, path)?;
            let what = if window.is_some() { "window" } else { "plot" };
            let answer = ask(rt, film, slots, plot_of(file.as_slice(), window))?;
            println!(rt; "{what} {path}: {}", Answered(answer))?;
        }
        Step::Blank => {
            ask(rt, film, slots, Request::Blank)?;
            println!(rt; "blank")?;
        }
        Step::Read { column, row } => {
            let answer = ask(rt, film, slots, Request::Read { column, row })?;
            println!(rt; "read {column} {row}: {}", Answered(answer))?;
        }
        Step::Sheet(path) => {
            let bytes = put_sheet(rt, film, path)?;
            println!(rt; "sheet {path}: {bytes} bytes")?;
        }
    }
    Ok(())
}

// A job that is carried out ends well, whatever it is refused.
impl Work for Steps<'_, '_> {
    fn tell<D: fmt::Display + Drop>(&self, rt: &HostRuntime, what: D) -> Result<(), Stop> {
        println!(rt; "{what}")?;
        Ok(())
    }

    fn refuse(&self, rt: &HostRuntime, what: &str, fault: FilmFault) -> Result<(), Stop> {
        println!(rt; "{what}: {}", Refused(Refusal::from(fault)))?;
        Ok(())
    }

    // A step that cannot be carried out names its line.
    fn carry_out<F: Film>(&self, rt: &HostRuntime, film: &mut F) -> Result<(), Stop> {
        if let Some(
            SlotPlan {
                apertures,
                objects,
                pieces,
            },
        ) = self.slots
        {
            println!(rt; "slots {apertures} {objects} {pieces}")?;
        }
        let mut memory = Memory::new(rt.alloc(), self.slots.unwrap_or(SlotPlan::FULL))?;
        let mut slots = memory.lend();
        for numbered in self.steps {
            if let Err(stop) = take_step(rt, film, &mut slots, numbered.step) {
                eprintln!(rt; "plotter: the job ends at its line {}", numbered.line)?;
                return Err(stop);
            }
        }
        Ok(())
    }
}
