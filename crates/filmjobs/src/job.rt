// A job: a film, and a list of what is done on it, one line each.
use crate::memory::SlotPlan;
use crate::pile::{FilmPlan, Kind, PilePlan, expose_on};
use crate::work::{NumberedStep, Step, Steps};
use film::grid::Grid;
use film::window::Window;
use std::alloc::AllocError;
use terminal::files::read_file;
use terminal::stop::{Stop, stop_with};

// A line of a job by its form.
#[derive(Clone, Copy)]
enum Line<'a> {
    Film(FilmPlan),
    Cut(Window),
    Mirror,
    Negative,
    Slots(SlotPlan),
    Step(Step<'a>),
}

// How far a job has come: lines of a later stage never come before those of an earlier one.
#[derive(Clone, Copy, PartialEq, Eq, PartialOrd, Ord)]
enum Stage {
    Film,
    Cut,
    Mirror,
    Negative,
    Slots,
    Step,
}

impl<'a> Line<'a> {
    // The line that these words are.
    fn of(words: &[&'a str]) -> Option<Line<'a>> {
        Some(match words {
            ["film", kind, width, height, pitch, ox, oy] => Line::Film(FilmPlan {
                kind: Kind::named(kind)?,
                grid: Grid {
                    width: width.parse().ok()?,
                    height: height.parse().ok()?,
                    pitch: pitch.parse().ok()?,
                    ox: ox.parse().ok()?,
                    oy: oy.parse().ok()?,
                },
            }),
            ["cut", x, y, width, height] => Line::Cut(window_of([x, y, width, height])?),
            ["mirror"] => Line::Mirror,
            ["negative"] => Line::Negative,
            ["slots", apertures, objects, pieces] => Line::Slots(SlotPlan {
                apertures: apertures.parse().ok()?,
                objects: objects.parse().ok()?,
                pieces: pieces.parse().ok()?,
            }),
            ["plot", path] => Line::Step(Step::Plot { window: None, path }),
            ["window", x, y, width, height, path] => Line::Step(Step::Plot {
                window: Some(window_of([x, y, width, height])?),
                path,
            }),
            ["blank"] => Line::Step(Step::Blank),
            ["read", column, row] => Line::Step(Step::Read {
                column: column.parse().ok()?,
                row: row.parse().ok()?,
            }),
            ["sheet", path] => Line::Step(Step::Sheet(path)),
            _ => return None,
        })
    }

    fn stage(self) -> Stage {
        match self {
            Line::Film(_) => Stage::Film,
            Line::Cut(_) => Stage::Cut,
            Line::Mirror => Stage::Mirror,
            Line::Negative => Stage::Negative,
            Line::Slots(_) => Stage::Slots,
            Line::Step(_) => Stage::Step,
        }
    }

    // Whether the line may follow, once the job has come to this stage. The film comes first, and
    // steps alone follow their like.
    fn may_follow(self, reached: Option<Stage>) -> bool {
        match (reached, self.stage()) {
            (None, stage) => stage == Stage::Film,
            (Some(Stage::Step), stage) => stage == Stage::Step,
            (Some(reached), stage) => stage > reached,
        }
    }
}

// A window from its four numbers.
pub(crate) fn window_of([x, y, width, height]: [&str; 4]) -> Option<Window> {
    Some(Window {
        x: x.parse().ok()?,
        y: y.parse().ok()?,
        width: width.parse().ok()?,
        height: height.parse().ok()?,
    })
}

// A job as it is read.
#[derive(Drop)]
struct Job<'a> {
    reached: Option<Stage>,
    film: Option<FilmPlan>,
    pile: PilePlan,
    slots: Option<SlotPlan>,
    steps: Vec<NumberedStep<'a>>,
}

impl<'a> Job<'a> {
    fn take(&mut self, number: usize, line: Line<'a>) -> Result<(), AllocError> {
        self.reached = Some(line.stage());
        match line {
            Line::Film(plan) => self.film = Some(plan),
            Line::Cut(window) => self.pile.cut = Some(window),
            Line::Mirror => self.pile.mirror = true,
            Line::Negative => self.pile.negative = true,
            Line::Slots(plan) => self.slots = Some(plan),
            Line::Step(step) => self.steps.push(NumberedStep { line: number, step })?,
        }
        Ok(())
    }
}

// The words of a line, without its comment.
fn words_of<'a>(rt: &HostRuntime, line: &'a str) -> Result<Vec<&'a str>, AllocError> {
    let said = line.split_once('#').map_or(line, |(front, _)| front);
    said.split_whitespace().collect(rt.alloc())
}

// Reads every line before anything is done.
fn parse_job<'a>(rt: &HostRuntime, path: &str, text: &'a str) -> Result<Job<'a>, Stop> {
    let mut job = Job {
        reached: None,
        film: None,
        pile: PilePlan::default(),
        slots: None,
        steps: Vec::new(rt.alloc()),
    };
    for (i, line) in text.lines().enumerate() {
        let number = i.saturating_add(1);
        let words = words_of(rt, line)?;
        if words.is_empty() {
            continue;
        }
        match Line::of(words.as_slice()) {
            Some(what) if what.may_follow(job.reached) => job.take(number, what)?,
            _ => return stop_with(
                rt,
                format_args!("{path}, line {number}: no line of a job: {line}"),
            ),
        }
    }
    Ok(job)
}

// Carries out the job in the file at `path`.
pub(crate) fn run_job(rt: &HostRuntime, path: &str) -> Result<(), Stop> {
    let bytes = read_file(rt, path)?;
    let Ok(text) = std::str::from_utf8(bytes.as_slice()) else {
        return stop_with(rt, format_args!("{path} is no text"));
    };
    let job = parse_job(rt, path, text)?;
    let Some(film) = job.film else {
        return stop_with(
            rt,
            format_args!("{path} has no line: a job begins with its film"),
        );
    };
    let work = Steps {
        slots: job.slots,
        steps: job.steps.as_slice(),
    };
    expose_on(rt, film, job.pile, &work)
}
