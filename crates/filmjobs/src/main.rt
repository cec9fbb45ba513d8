// The film plotter's program.
//
// `GERBER FILM --size=W,H` plots a Gerber file on a new film and writes it as a PBM sheet;
// `--job=JOB` carries out a list of plots, blankings and readings on one film, and writes sheets;
// `--records=FILE` and `--commands=FILE` list what a file comes to; `--testcard=FILM --size=W,H`
// draws a test card. A refused file, an unknown option or a file that cannot be read or written is
// told on standard error, and the program ends with status 1.
#![tactic(auto)]

mod job;
mod memory;
mod options;
mod pile;
mod recording;
mod work;

use job::run_job;
use options::{Options, Order, USAGE, complain, take_argument};
use pile::expose_on;
use recording::list_records;
use std::env;
use std::process::ExitCode;
use terminal::card::expose_card;
use terminal::listing::list_commands;
use terminal::stop::{Stop, exit_code};
use work::Single;

// Plots the one file that the arguments name.
fn plot_file(rt: &HostRuntime, options: &Options) -> Result<(), Stop> {
    let [gerber, sheet] = options.paths.as_slice() else {
        return complain(rt, "a plot wants", "a Gerber file and a film");
    };
    let Some(size) = options.size else {
        return complain(rt, "a film wants a", "--size=W,H");
    };
    let single = Single {
        gerber: gerber.as_str(),
        sheet: sheet.as_str(),
        window: options.window,
    };
    expose_on(rt, options.film(size), options.pile, &single)
}

fn draw_card(rt: &HostRuntime, options: &Options, path: &str) -> Result<(), Stop> {
    match options.size {
        Some(size) => expose_card(rt, path, size, options.pitch),
        None => complain(rt, "a test card wants a", "--size=W,H"),
    }
}

fn obey(rt: &HostRuntime, options: &Options, order: &Order) -> Result<(), Stop> {
    match order {
        Order::Job(path) => run_job(rt, path.as_str()),
        Order::Records(path) => list_records(rt, path.as_str()),
        Order::Commands(path) => list_commands(rt, path.as_str()),
        Order::Card(path) => draw_card(rt, options, path.as_str()),
        Order::Help => {
            println!(rt; "{USAGE}")?;
            Ok(())
        }
    }
}

// Does what the options ask for, in turn, and plots the file that is named.
fn obey_all(rt: &HostRuntime, options: &Options) -> Result<(), Stop> {
    for order in options.orders.iter() {
        obey(rt, options, order)?;
    }
    if options.paths.is_empty() && !options.orders.is_empty() {
        return Ok(());
    }
    plot_file(rt, options)
}

fn run(rt: &HostRuntime) -> Result<(), Stop> {
    let mut options = Options::new(rt);
    for arg in env::args(rt)?.skip(1) {
        take_argument(rt, &mut options, arg)?;
    }
    obey_all(rt, &options)
}

// each program has a main of its own
fn main(rt: HostRuntime) -> ExitCode {
    let outcome = run(&rt);
    exit_code(&rt, outcome)
}
