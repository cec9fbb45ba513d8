// Ending a program early.
ghost use Rattle.std.specs.Prelude.{◌≡◌, true, IfErr, IsErr, IsOk, ◌↔◌};
ghost use Rattle.terminal.specs.Stops.{was_told};
ghost use Rattle.terminal.specs.declared.stop.Stop.TheVariants.{Memory, Output};
ghost use Rattle.std.specs.Process.{exit_status};

use std::alloc::{AllocError, AllocFailed};
use std::process::ExitCode;
use std::{fmt, io};

/// What ends a program early.
#[derive(Debug, Drop)]
pub enum Stop {
    /// the reason has been told on standard error
    Told,
    /// the output cannot be written
    Output(io::Error),
    /// there is not enough memory
    Memory,
}

impl From<AllocError> for Stop {
    ghost from_gives = { λ _ r. r ≡ Memory };

    fn from(_: AllocError) -> Stop {
        Stop::Memory
    }
}

impl<T: Drop> From<AllocFailed<T>> for Stop {
    ghost from_gives = { λ _ r. r ≡ Memory };

    fn from(_: AllocFailed<T>) -> Stop {
        Stop::Memory
    }
}

impl From<io::Error> for Stop {
    ghost from_gives = { λ e r. r ≡ Output e };

    fn from(e: io::Error) -> Stop {
        Stop::Output(e)
    }
}

/// Tells on standard error why the program stops.
pub fn stop_with<T, D: fmt::Display + Drop>(rt: &HostRuntime, reason: D) -> Result<T, Stop>
    ensures stops { IsErr result }
    ensures told { IfErr result (λ s. was_told s ≡ true) }
{
    eprintln!(rt; "plotter: {reason}")?;
    Err(Stop::Told)
}

/// The status that a program ends with.
pub fn exit_code(rt: &HostRuntime, outcome: Result<(), Stop>) -> ExitCode
    ensures { (exit_status result ≡ 0) ↔ IsOk outcome }
{
    match outcome {
        Ok(()) => ExitCode::SUCCESS,
        Err(Stop::Memory) => {
            // the status tells of it where this cannot be written
            let _ = eprintln!(rt; "plotter: there is not enough memory");
            ExitCode::FAILURE
        }
        Err(_) => ExitCode::FAILURE,
    }
}
