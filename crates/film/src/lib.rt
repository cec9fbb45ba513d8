// A film: a grid of pixels, each dark or clear, with its place in ticks.
//
// `Grid` is a film's width and height in pixels, its pitch and its origin, as they are asked for;
// `Numbers` are such numbers, and their type keeps the limits, so that code over any film computes
// pixel centres without overflow.
// `Film` is what every film can do: tell its numbers, read a pixel, write a span of one row, and
// pack one row into bitmap bytes. Its meaning is the numbers and, for each pixel, dark or clear.
// `Window` is a part of a film, and `Span` a part of one row. `FilmFault` says why a call on a
// film is refused; `Refused` hands back what no film was made of.
// Films with memory of their own, and films over films, are in other crates.
#![tactic(auto)]

pub mod bytes;
pub mod fault;
pub mod film;
pub mod grid;
pub mod limits;
pub mod memory;
pub mod numbers;
pub mod refused;
pub mod span;
pub mod window;
