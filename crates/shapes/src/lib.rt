// Shapes: each tells which whole points it covers, and a box that holds them all.
//
// `shape` has the trait `Shape`. Its `covers` answers for any point within ±1,000,000, and its `bounds` gives the box,
// with the law that each covered point lies in it. `flashes` has the shapes of a flashed aperture: the circle, the
// rectangle and the obround; strokes and contours have crates of their own. `reach` has how far a box reaches. All edges are closed: a point right on an
// edge is covered. A circle of half 0 covers nothing.
//
// What a shape covers is defined in `specs/Flashes.antt`, in whole numbers. The tests work in whole numbers too.
// `laws` states what follows from the definitions.

#![tactic(auto)]

pub mod flash_shapes;
pub mod flashes;
pub mod laws;
pub mod reach;
pub mod shape;
