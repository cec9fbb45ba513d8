// Listing a file's commands.
ghost use Rattle.std.specs.Prelude.{◌≡◌, true, IfErr};
ghost use Rattle.terminal.specs.Stops.{listing_told, was_told};
ghost use Rattle.terminal.specs.declared.listing.Listing.TheVariants.{Refused, Stopped};

use crate::files::{read_file, refuse};
use crate::position::Position;
use crate::stop::Stop;
use commands::{CommandFault, next_command};
use forms::Command;
use wording::InWords;
use words::Cursor;

// What ends a listing early.
#[derive(Drop)]
enum Listing {
    Refused(CommandFault),
    Stopped(Stop),
}

impl From<CommandFault> for Listing {
    ghost from_gives = { λ f r. r ≡ Refused f };

    fn from(fault: CommandFault) -> Listing {
        Listing::Refused(fault)
    }
}

impl From<Stop> for Listing {
    ghost from_gives = { λ s r. r ≡ Stopped s };

    fn from(stop: Stop) -> Listing {
        Listing::Stopped(stop)
    }
}

fn print_command(rt: &HostRuntime, at: Position<'_>, command: Command<'_>) -> Result<(), Stop>
    ensures { IfErr result (λ s. was_told s ≡ true) }
{
    println!(rt; "line {}, byte {}: {}", at.line, at.place, InWords(command))?;
    Ok(())
}

// Prints the commands of a file up to M02, and answers how many there are.
fn print_commands(rt: &HostRuntime, file: &[u8]) -> Result<usize, Listing>
    ensures { IfErr result (λ l. listing_told l ≡ true) }
{
    let mut cursor = Cursor::start(file);
    let mut format = None;
    let mut position = Position::first(file);
    // a loop and no iterator: it ends behind M02, and each turn reads by the format of the last
    // a loop and no iterator: it ends behind M02, and each turn reads by the format of the last
    loop {
        let read = next_command(cursor, format)?;
        position = position.advance(read.place);
        print_command(rt, position, read.command)?;
        cursor = cursor.behind(read.next);
        if read.is_end() {
            cursor.close().map_err(CommandFault::from)?;
            return Ok(cursor.taken);
        }
        format = read.format_after(format);
    }
}

/// Lists the commands of the file at `path`, or tells why it is refused.
pub fn list_commands(rt: &HostRuntime, path: &str) -> Result<(), Stop>
    ensures { IfErr result (λ s. was_told s ≡ true) }
{
    let file = read_file(rt, path)?;
    match print_commands(rt, file.as_slice()) {
        Ok(count) => {
            println!(rt; "{count} commands")?;
            Ok(())
        }
        Err(Listing::Refused(fault)) => refuse(rt, path, file.as_slice(), fault.into()),
        Err(Listing::Stopped(stop)) => Err(stop),
    }
}
