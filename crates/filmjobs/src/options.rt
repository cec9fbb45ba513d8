// The program's options.
use crate::job::window_of;
use crate::pile::{FilmPlan, Kind, PilePlan};
use film::grid::Grid;
use film::window::Window;
use sheet::size::Size;
use std::alloc::AllocError;
use terminal::sheets::size_of;
use terminal::stop::{Stop, stop_with};

pub(crate) const USAGE: &str =
    "usage: plotter GERBER FILM --size=W,H [--pitch=P] [--origin=X,Y] [--window=x,y,w,h]
               [--film=bitmap|runs] [--cut=x,y,w,h] [--mirror] [--negative]
       plotter --job=JOB
       plotter --records=GERBER
       plotter --commands=GERBER
       plotter --testcard=FILM --size=W,H [--pitch=P]

The first form plots a Gerber file and writes the film as PBM, for example
       plotter examples/lock-board.gbr board.pbm --size=2000,1500
Sizes and windows are pixels, pitch and origin are ticks of 5 micrometres; without --pitch a
pixel has 4 ticks.";

// What the program is asked to do, besides plotting the file that is named.
#[derive(Drop)]
pub(crate) enum Order {
    Job(String),
    Records(String),
    Commands(String),
    Card(String),
    Help,
}

// All options.
#[derive(Drop)]
pub(crate) struct Options {
    // what is ordered, and apart from it the file to plot and where its sheet goes
    pub(crate) orders: Vec<Order>,
    pub(crate) paths: Vec<String>,
    pub(crate) size: Option<Size>,
    pub(crate) pitch: u32,
    pub(crate) ox: i32,
    pub(crate) oy: i32,
    pub(crate) kind: Kind,
    pub(crate) window: Option<Window>,
    pub(crate) pile: PilePlan,
}

impl Options {
    pub(crate) fn new(rt: &HostRuntime) -> Options {
        Options {
            orders: Vec::new(rt.alloc()),
            paths: Vec::new(rt.alloc()),
            size: None,
            pitch: 4,
            ox: 0,
            oy: 0,
            kind: Kind::Bitmap,
            window: None,
            pile: PilePlan::default(),
        }
    }

    pub(crate) fn film(&self, size: Size) -> FilmPlan {
        FilmPlan {
            kind: self.kind,
            grid: Grid {
                width: size.width,
                height: size.height,
                pitch: self.pitch,
                ox: self.ox,
                oy: self.oy,
            },
        }
    }
}

// Each program complains in its own words.
pub(crate) fn complain(rt: &HostRuntime, about: &str, arg: &str) -> Result<(), Stop> {
    stop_with(
        rt,
        format_args!("{about} {arg}\nplotter: --help shows every form"),
    )
}

// A window from its four numbers with commas between.
fn window(text: &str) -> Option<Window> {
    let (x, rest) = text.split_once(',')?;
    let (y, rest) = rest.split_once(',')?;
    let (width, height) = rest.split_once(',')?;
    window_of([x, y, width, height])
}

fn origin(text: &str) -> Option<(i32, i32)> {
    let (x, y) = text.split_once(',')?;
    Some((x.parse().ok()?, y.parse().ok()?))
}

// Takes an option that says something about the film; None where its value is none.
fn take_value(options: &mut Options, name: &str, value: &str) -> Option<()> {
    match name {
        "--size" => options.size = Some(size_of(value)?),
        "--pitch" => options.pitch = value.parse().ok()?,
        "--origin" => (options.ox, options.oy) = origin(value)?,
        "--window" => options.window = Some(window(value)?),
        "--cut" => options.pile.cut = Some(window(value)?),
        "--film" => options.kind = Kind::named(value)?,
        _ => return None,
    }
    Some(())
}

// The order that an option gives, if it gives one.
fn order_of(rt: &HostRuntime, name: &str, value: &str) -> Result<Option<Order>, AllocError> {
    let path = String::from_str(rt.alloc(), value)?;
    Ok(match name {
        "--job" => Some(Order::Job(path)),
        "--records" => Some(Order::Records(path)),
        "--commands" => Some(Order::Commands(path)),
        "--testcard" => Some(Order::Card(path)),
        _ => None,
    })
}

fn take_named(
    rt: &HostRuntime,
    options: &mut Options,
    arg: &str,
    name: &str,
    value: &str,
) -> Result<(), Stop> {
    if let Some(order) = order_of(rt, name, value)? {
        options.orders.push(order)?;
    } else if take_value(options, name, value).is_none() {
        complain(
            rt,
            "an unknown option, or a value that it cannot have:",
            arg,
        )?;
    }
    Ok(())
}

fn take_flag(rt: &HostRuntime, options: &mut Options, arg: &str) -> Result<(), Stop> {
    match arg {
        "--mirror" => options.pile.mirror = true,
        "--negative" => options.pile.negative = true,
        "--help" => options.orders.push(Order::Help)?,
        _ => complain(rt, "an unknown option:", arg)?,
    }
    Ok(())
}

// Takes one argument.
pub(crate) fn take_argument(
    rt: &HostRuntime,
    options: &mut Options,
    arg: String,
) -> Result<(), Stop> {
    if !arg.as_str().starts_with("--") {
        options.paths.push(arg)?;
        return Ok(());
    }
    match arg.as_str().split_once('=') {
        Some((name, value)) => take_named(rt, options, arg.as_str(), name, value),
        None => take_flag(rt, options, arg.as_str()),
    }
}
