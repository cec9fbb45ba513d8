// The caller's side of the record tables: slots, and what stands in them at first.
use contour::pieces::Piece;
use drawing::reading::Slots;
use forms::Polarity;
use plane::points::{FilePoint, Half};
use records::kinds::{Aperture, Figure, Object, Outline, Owner};
use std::alloc::{AllocError, Global};

// How many slots each table has.
#[derive(Clone, Copy)]
pub(crate) struct SlotPlan {
    pub(crate) apertures: usize,
    pub(crate) objects: usize,
    pub(crate) pieces: usize,
}

impl SlotPlan {
    // As many as a drawing may have records.
    pub(crate) const FULL: SlotPlan = SlotPlan {
        apertures: 128,
        objects: 4_096,
        pieces: 8_192,
    };
}

// The slots of the three tables, each of records of its own kind.
#[derive(Drop)]
pub(crate) struct Memory {
    pub(crate) apertures: Vec<Aperture>,
    pub(crate) objects: Vec<Object>,
    pub(crate) pieces: Vec<Piece>,
}

impl Memory {
    // Slots for so many records of each kind, and for no more than a drawing may have.
    pub(crate) fn new(heap: Global, slots: SlotPlan) -> Result<Memory, AllocError> {
        let half = Half { ticks: 0 };
        let at = FilePoint { x: 0, y: 0 };
        let aperture = Aperture {
            code: 0,
            figure: Figure::Circle { half },
        };
        let object = Object {
            polarity: Polarity::Dark,
            owner: Owner::Layer,
            outline: Outline::Circle { at, half },
        };
        let full = SlotPlan::FULL;
        Ok(Memory {
            apertures: vec![in heap; aperture; slots.apertures.min(full.apertures)]?,
            objects: vec![in heap; object; slots.objects.min(full.objects)]?,
            pieces: vec![in heap; Piece { end: at }; slots.pieces.min(full.pieces)]?,
        })
    }

    // The slots as they are lent.
    pub(crate) fn lend(&mut self) -> Slots<'_> {
        Slots {
            apertures: self.apertures.as_mut_slice(),
            objects: self.objects.as_mut_slice(),
            pieces: self.pieces.as_mut_slice(),
        }
    }
}
