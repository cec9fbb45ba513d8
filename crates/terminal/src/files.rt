// Reading and writing files, and telling why one is refused.
ghost use Rattle.std.specs.Prelude.{◌≡◌, true, IfErr, IsErr};
ghost use Rattle.terminal.specs.Stops.{was_told};

use crate::position::Position;
use crate::stop::{Stop, stop_with};
use std::fs;
use wording::refusals::{Reason, Refusal};

/// The bytes of the file at `path`; one that cannot be read is told on standard error.
pub fn read_file(rt: &HostRuntime, path: &str) -> Result<Vec<u8>, Stop>
    ensures { IfErr result (λ s. was_told s ≡ true) }
{
    fs::read(rt, path).or_else(|e| stop_with(rt, format_args!("{path} cannot be read: {e}")))
}

/// Writes a file; one that cannot be written is told on standard error.
pub fn write_file(rt: &HostRuntime, path: &str, bytes: &[u8]) -> Result<(), Stop>
    ensures { IfErr result (λ s. was_told s ≡ true) }
{
    fs::write(rt, path, bytes).or_else(|e| {
        stop_with(rt, format_args!("{path} cannot be written: {e}"))
    })
}

/// Tells on standard error why a file is refused, and where.
pub fn refuse<T>(rt: &HostRuntime, path: &str, file: &[u8], refusal: Refusal) -> Result<T, Stop>
    ensures stops { IsErr result }
    ensures told { IfErr result (λ s. was_told s ≡ true) }
{
    eprintln!(rt; "plotter: {path} {}", Reason(refusal))?;
    let Refusal {
        number,
        place,
        taken,
        ..
    } = refusal;
    // a smaller number refuses the call, and no byte of the file is to blame
    if number >= 10 {
        let at = Position::first(file).advance(place);
        eprintln!(rt;
            "plotter: byte {place}, line {}, column {}; commands taken before it: {taken}",
            at.line,
            at.column()
        )?;
    }
    Err(Stop::Told)
}
