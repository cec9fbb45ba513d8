// Laying a drawing on a film.
//
// `lay` lays every object of a drawing's records on any film, within a window: in file order, blocks
// and step and repeat written out. It goes by the walk of crate `laid`, which gives one placed
// object after another, and paints each on a pane, the window on the film. Nothing is collected on
// the way, so that the memory that it takes does not grow with what is laid.
//
// `objects` lays one placed object: it is the only place that tells the kinds of outlines apart, so
// that a new kind needs one arm there and its definitions. `layers` has the layer itself, its blocks
// and its step and repeat. It is generic over the film and proved once. specs/Lays.antt says what
// laying leaves, by the definitions of crate `laid`.
#![tactic(auto)]

mod contours;
pub mod layers;
mod objects;
