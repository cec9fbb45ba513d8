// The rules of commands: what a command does to the graphics state, and what it draws.
//
// `State` is the one record of the graphics state. A `Desk` holds it beside what the record tables
// hold, and decides on a command: the next state and one `Effect`, which is nothing, an aperture, an
// object or a piece of a contour, for the caller to take into a table. It alters nothing, so a command
// that is refused leaves the state as it was. Checks run in the order of the numbers of refusals;
// whether a record finds a place, and what it lays, is for the caller to say.
//
// specs/Rules.antt has the rules, one definition for each, over the plain values of specs/States.antt;
// specs/Settings.antt has the state with another part.

#![tactic(auto)]

mod apertures;
mod arcs;
pub mod decision;
mod measures;
mod points;
pub mod rule;
mod settings;
mod standing;
pub mod state;
mod strokes;
mod values;
