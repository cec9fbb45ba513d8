// Strokes: the points that a round aperture passes over on its way, straight or along an arc.
//
// `strokes` has the two kinds; each end is a place and the half is that of the aperture. A stroke of half 0 covers
// nothing. `stroke_shape` and `arc_shape` make them shapes: they tell which points are covered, and a box. A straight
// stroke that goes nowhere is a disc; its band is asked for only where its ends differ. An arc that goes nowhere is the
// whole ring.
//
// What a stroke covers is defined in `specs/`, in whole numbers: edges are compared by squares, so nothing is rounded.
// Sums and products of coordinates fit 64 bits for any places; the squares of products take 128 bits.
// `laws` states what follows from the definitions.

#![tactic(auto)]

pub mod arc_shape;
pub mod laws;
pub mod measures;
pub mod stroke_shape;
pub mod strokes;
