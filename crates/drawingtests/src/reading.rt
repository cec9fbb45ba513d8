// Reading a file in a test.
use contour::pieces::Piece;
use drawing::fault::{Drawing, PlotFault};
use drawing::reading::{Slots, read_drawing};
use forms::Polarity;
use plane::points::{FilePoint, Half};
use records::kinds::{Aperture, Figure, Object, Outline, Owner};
use std::alloc::{AllocError, Global};
use wording::refusals::Refusal;

// Memory for the slots of a file's records, three tables of different kinds. (Tests stand in crates
// of their own, so that the programs have another such owner.)
#[derive(Drop)]
pub(crate) struct Memory {
    pub(crate) apertures: Vec<Aperture>,
    pub(crate) objects: Vec<Object>,
    pub(crate) pieces: Vec<Piece>,
}

impl Memory {
    // So many slots, with records that no file has.
    pub(crate) fn new(
        heap: Global,
        apertures: usize,
        objects: usize,
        pieces: usize,
    ) -> Result<Memory, AllocError> {
        let half = Half { ticks: 77 };
        let at = FilePoint { x: 77, y: 77 };
        let aperture = Aperture {
            code: 7,
            figure: Figure::Circle { half },
        };
        let object = Object {
            polarity: Polarity::Clear,
            owner: Owner::Block(777),
            outline: Outline::Circle { at, half },
        };
        Ok(Memory {
            apertures: vec![in heap; aperture; apertures]?,
            objects: vec![in heap; object; objects]?,
            pieces: vec![in heap; Piece { end: at }; pieces]?,
        })
    }

    pub(crate) fn read(&mut self, file: &[u8]) -> Result<Drawing, PlotFault> {
        let mut slots = Slots {
            apertures: self.apertures.as_mut_slice(),
            objects: self.objects.as_mut_slice(),
            pieces: self.pieces.as_mut_slice(),
        };
        read_drawing(file, &mut slots)
    }

    // What reading tells: 0, the objects and the laid objects; or number, place and commands taken.
    pub(crate) fn told(&mut self, file: &[u8]) -> (u32, usize, usize) {
        match self.read(file) {
            Ok(d) => (0, d.objects, d.laid as usize),
            Err(fault) => {
                let r = Refusal::from(fault);
                (r.number, r.place, r.taken)
            }
        }
    }
}

// A file of millimetres with 4 decimals, apertures 10 (a circle of 0.2), 11 (a rectangle of 1 by 0.5)
// and 12 (an obround of 1 by 0.5), and then `body`. Five commands of 63 bytes come before it.
pub(crate) fn with_head(heap: Global, body: &str) -> Result<String, AllocError> {
    format!(in heap; "{HEAD}{body}")
}

pub(crate) const HEAD: &str = "%FSLAX34Y34*%%MOMM*%%ADD10C,0.2*%%ADD11R,1X0.5*%%ADD12O,1X0.5*%";
