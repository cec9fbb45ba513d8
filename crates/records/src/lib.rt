// What a drawing is made of: the records that reading a file leaves in the caller's tables.
//
// `Aperture` is a circle, a rectangle, an obround or a block, under its code. `Object` is what one
// command draws: a flash, a stroke, an arc, a contour, or a flash of a block; it has its polarity
// and what it belongs to: the layer itself, a block, or a step and repeat. A contour's pieces have
// a table of their own. The ranges of points and halves stand in their types.
//
// `weigh_aperture` tells how deep blocks are nested in a block and how many objects a flash of it lays.
// specs/Records.antt has the records as plain values, specs/Weights.antt depth and laid count.

#![tactic(auto)]

pub mod kinds;
pub mod weights;
