// The commands of a file are read and carried out, one after another, up to M02.
ghost use Rattle.drawing.specs.Turns.{Running};

use crate::fault::DrawingFault;
use crate::steps::Progress;
use commands::next_command;
use contour::pieces::Piece;
use records::kinds::{Aperture, Object};
use table::Table;
use words::Cursor;

// Reads a file from its start and answers how many objects it lays.
// The tables stand apart, here and in what is called: of a struct that owns the three, the proof does not
// know what the lent slots hold at its end, and one that borrows them is not covered by the check.
pub(crate) fn read_commands(
    file: &[u8],
    apertures: &mut Table<'_, Aperture>,
    objects: &mut Table<'_, Object>,
    pieces: &mut Table<'_, Piece>,
) -> Result<u32, DrawingFault>
    ensures { Running file.now apertures.old objects.old pieces.old result apertures.new objects.new pieces.new }
{
    let mut cursor = Cursor::start(file);
    let mut progress = Progress::start();
    // a loop and no iterator: it ends behind M02, and each turn reads by the format of the last
    loop {
        let read = next_command(cursor, progress.state.format)?;
        // no `map_err`: of what a closure answers the loop's proof does not see which rule it was
        match progress.step(apertures, objects, pieces, read.command) {
            Ok(next) => progress = next,
            Err(rule) => {
                return Err(DrawingFault::Broken {
                    rule,
                    place: read.place,
                    taken: cursor.taken,
                });
            }
        }
        cursor = cursor.behind(read.next);
        if read.is_end() {
            cursor.close()?;
            return Ok(progress.laid);
        }
    }
}
