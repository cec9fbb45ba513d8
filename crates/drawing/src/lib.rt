// A whole file becomes the records of a drawing.
//
// `read_drawing` reads a Gerber file command by command, carries each out by the rules, and takes
// the records of apertures, objects and pieces of contours into tables over the caller's slots. It
// answers how many of each it took and how many objects they lay, or the refusal. A refusal leaves
// the records that were taken before it; slots behind the records are never touched.
//
// specs/Books.antt has what one command adds to the records, specs/Reading.antt a whole file,
// specs/Answers.antt the answer and what the slots then hold.

#![tactic(auto)]

pub mod fault;
pub mod reading;
mod running;
mod steps;
mod taking;
mod weighing;
