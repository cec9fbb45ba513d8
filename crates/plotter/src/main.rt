// The film plotter's program.
//
// `--commands=FILE` lists the commands of a Gerber file, one line each; several files may be given.
// `--testcard=FILM --size=W,H [--pitch=P]` draws a test card and writes it as a PBM sheet.
// A refused file, an unknown option or a file that cannot be read or written is told on standard
// error, and the program ends with status 1.
#![tactic(auto)]

use sheet::size::Size;
use std::env;
use std::process::ExitCode;
use terminal::card::expose_card;
use terminal::listing::list_commands;
use terminal::sheets::size_of;
use terminal::stop::{Stop, exit_code, stop_with};

const USAGE: &str =
    "usage: plotter --commands=FILE\n       plotter --testcard=FILM --size=W,H [--pitch=P]";

// What the options ask for, besides what is carried out as they are read.
#[derive(Drop)]
struct Wanted {
    // the whole option, kept as it came, so that no memory is asked for
    card: Option<String>,
    size: Option<Size>,
    pitch: u32,
}

// Each program complains in its own words.
fn complain(rt: &HostRuntime, about: &str, arg: &str) -> Result<(), Stop> {
    stop_with(rt, format_args!("{about} {arg}\n{USAGE}"))
}

// Takes one option; a listing is carried out at once.
fn take_option(rt: &HostRuntime, wanted: &mut Wanted, arg: String) -> Result<(), Stop> {
    match arg.as_str().split_once('=') {
        Some(("--commands", path)) => list_commands(rt, path)?,
        Some(("--size", text)) => match size_of(text) {
            Some(size) => wanted.size = Some(size),
            None => complain(rt, "--size wants W,H, not", text)?,
        },
        Some(("--pitch", text)) => match text.parse() {
            Ok(pitch) => wanted.pitch = pitch,
            Err(_) => complain(rt, "--pitch wants a number, not", text)?,
        },
        Some(("--testcard", _)) => wanted.card = Some(arg),
        _ => complain(rt, "unknown option", arg.as_str())?,
    }
    Ok(())
}

// Carries out what the options ask for together.
fn finish(rt: &HostRuntime, wanted: &Wanted) -> Result<(), Stop> {
    let Some((_, path)) = wanted
        .card
        .as_ref()
        .and_then(|card| card.as_str().split_once('='))
    else {
        return Ok(());
    };
    match wanted.size {
        Some(size) => expose_card(rt, path, size, wanted.pitch),
        None => complain(rt, "a test card wants a", "--size"),
    }
}

fn run(rt: &HostRuntime) -> Result<(), Stop> {
    let mut wanted = Wanted {
        card: None,
        size: None,
        pitch: 4,
    };
    let mut options = env::args(rt)?.skip(1).peekable();
    if options.peek().is_none() {
        return complain(rt, "nothing to do:", "no option given");
    }
    for arg in options {
        take_option(rt, &mut wanted, arg)?;
    }
    finish(rt, &wanted)
}

// each program has a main of its own
fn main(rt: HostRuntime) -> ExitCode {
    let outcome = run(&rt);
    exit_code(&rt, outcome)
}
