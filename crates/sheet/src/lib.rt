// A PBM sheet: a film as a file in the form P4, row by row into an output of the caller's.
//
// `OpenSheet::open` writes the header, `write_row` one row of any film of the sheet's width, and
// `close` ends the sheet once every row is written. The output is lent to each call anew and has
// room for the whole sheet; a call says of each of its bytes what it then holds, and a refused
// call leaves output and sheet as they were.
// An open sheet cannot be let go, so that no half-written sheet is forgotten: a refused close
// hands it back. A closed sheet takes no more rows. The compiler refuses both misuses.
// `write_film` does it all for one film, and `sheet_length` says how much room a sheet wants.
// `laws`: what was written reads back, by the rules of P4, as the film.
#![tactic(auto)]

pub mod calls;
pub mod closed;
pub mod fault;
pub mod header;
pub mod laws;
pub mod open;
pub mod size;
pub mod whole;
