ghost use Rattle.std.specs.Prelude.{◌≡◌, ℕ, map, length, slice_index_or};
ghost use Rattle.records.specs.Records.{seen_aperture, seen_object};
ghost use Rattle.records.specs.Weights.{none, or_nothing, weight_told};

use contour::pieces::Piece;
use records::kinds::{Aperture, Object};
use records::weights::Weight;

/// The records of a drawing: three kinds, each in a table of its own.
#[derive(Clone, Copy)]
pub struct Records<'a> {
    pub apertures: &'a [Aperture],
    pub objects: &'a [Object],
    pub pieces: &'a [Piece],
}

/// The records of a drawing, and the weights of its apertures.
#[derive(Drop)]
pub struct Drawing<'a> {
    pub records: Records<'a>,
    // fixed memory: no heap is asked for
    pub(crate) weights: [Weight; 128],
    ghost weighed: { (k : ℕ) → slice_index_or weights k none ≡ or_nothing (weight_told (length records.apertures.now) (map seen_aperture records.apertures.now) (map seen_object records.objects.now) k) },
}
