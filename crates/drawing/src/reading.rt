// A whole file is read into the caller's slots.
ghost use Rattle.drawing.specs.Answers.{answer, stored, told_plot};
ghost use Rattle.drawing.specs.Reading.{is_short};
ghost use Rattle.drawing.specs.Slots.{SameSlots, read_in};
ghost use Rattle.records.specs.Records.{seen_aperture, seen_object, seen_piece};
ghost use Rattle.std.specs.Prelude.{◌≡◌, map};

use crate::fault::{Drawing, PlotFault};
use crate::running::read_commands;
use contour::pieces::Piece;
use records::kinds::{Aperture, Object};
use table::Table;

// How long a file may be.
const LONGEST: usize = 1_048_576;

// How many records of each kind a file may have.
const MOST_APERTURES: usize = 128;

const MOST_OBJECTS: usize = 4_096;

const MOST_PIECES: usize = 8_192;

fn is_short(file: &[u8]) -> bool
    ensures { result ≡ is_short file.now }
{
    file.len() <= LONGEST
}

/// The slots that a caller lends for the records of a file.
// fixed memory: the caller lends the slots, so that no heap is asked for
#[derive(Drop)]
pub struct Slots<'a> {
    pub apertures: &'a mut [Aperture],
    pub objects: &'a mut [Object],
    pub pieces: &'a mut [Piece],
}

/// Reads a file: the records of its apertures, objects and contour pieces go into the front of the
/// slots, and it answers how many there are of each and how many objects they lay.
pub fn read_drawing(file: &[u8], slots: &mut Slots<'_>) -> Result<Drawing, PlotFault>
    ensures answer { told_plot result ≡ answer (read_in slots.old file.now) }
    ensures apertures { map seen_aperture slots.new.apertures.now ≡ stored (read_in slots.old file.now).books.apertures (map seen_aperture slots.old.apertures.now) }
    ensures objects { map seen_object slots.new.objects.now ≡ stored (read_in slots.old file.now).books.objects (map seen_object slots.old.objects.now) }
    ensures pieces { map seen_piece slots.new.pieces.now ≡ stored (read_in slots.old file.now).books.pieces (map seen_piece slots.old.pieces.now) }
    ensures lent { SameSlots slots.old slots.new }
{
    if !is_short(file) {
        return Err(PlotFault::TooLong);
    }
    let mut apertures = Table::new(slots.apertures, MOST_APERTURES);
    let mut objects = Table::new(slots.objects, MOST_OBJECTS);
    let mut pieces = Table::new(slots.pieces, MOST_PIECES);
    let laid = read_commands(file, &mut apertures, &mut objects, &mut pieces)?;
    Ok(Drawing {
        apertures: apertures.len(),
        objects: objects.len(),
        pieces: pieces.len(),
        laid,
    })
}
