// Painting a shape on a film.
//
// A `Pane` is a window on a film. Painting a shape on it gives every pixel of the window whose centre
// the shape covers one colour, and leaves every other pixel as it is. It is generic over the shape and
// the film, and proved once: a new shape or a new film needs nothing here. Only the rows and columns
// that the shape's box reaches are looked at, and covered pixels go to the film as spans that are as
// long as they can be. `paint` does it for one shape, and refuses a window that is not on the film.
//
// `axis` has the steps of a film's grid along one axis: their middles, and which of them lie before or
// up to an edge of the box. specs/Painted.antt says what a film then shows, specs/Panes.antt what a
// pane is in plain values.

#![tactic(auto)]

mod area;
mod axes;
mod axis;
mod clipping;
pub mod painting;
pub mod pane;
pub mod panes;
