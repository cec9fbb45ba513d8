// The laid objects of a drawing: which there are, and in which order.
//
// A drawing's records have blocks and step and repeat; laid out, it is a list of plain objects, each
// dark or clear, at its placed points. That list is never made: `walk` gives it one object at a
// time, with a stack of at most eight block places, so that its memory does not grow with what is
// laid. `drawing` has the records with the weights of their apertures, by which a block that lays
// nothing is passed over. `groups` and `shifts` serve step and repeat: its objects, and how far its
// copies are moved. `laws` states what follows from the definitions.
//
// specs/Laid.antt defines the list from the records, specs/Puts.antt how points are placed,
// specs/Covered.antt what the objects leave on a film, and specs/Stacks.antt what a stack has left.
#![tactic(auto)]

mod compose;
pub mod drawing;
pub mod drawings;
pub mod groups;
pub mod kinds;
pub mod laws;
mod objects;
mod opening;
pub mod shifts;
pub mod stack;
pub mod walk;
