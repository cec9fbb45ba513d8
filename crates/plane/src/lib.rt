// The plane that films and shapes lie in: whole points, counted in ticks, and what is measured between them.
//
// `points` has the kinds of points, one struct with its range in its type: a point of the file, the centre of an arc in
// the file, a place that a shape can lie at, any point that a shape is asked about. It also has the half of a size, the way
// from one point to another, the box of a shape, and how a block is placed. `make` makes points and halves, or refuses.
// `vectors` measures: the way between two points, the cross and the dot product, the square of a length. `placing`
// mirrors and moves the points of a file to where a block lays them. `laws` states what follows from the definitions.
//
// Since the ranges stand in the types, no function here wants a condition, and no product can pass its number type.

#![tactic(auto)]

pub mod laws;
pub mod make;
pub mod placing;
pub mod points;
pub mod vectors;
