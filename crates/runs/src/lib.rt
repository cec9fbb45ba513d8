// A film that keeps the dark runs of each row.
//
// `RunFilm` owns its memory: a count for each row, and for each row slots for half as many runs as
// it has columns, rounded up. The runs of a row ascend and never touch, which its type keeps, so
// they always fit. Slots past a row's count are free.
// Writing a dark span joins the runs that it meets or touches, a clear one cuts what it meets.
// `RunFilm::new` takes the memory and empties the film's rows, or hands it back with the reason;
// `into_memory` gives it back. Counts and slots past the film's own stay as they were.
#![tactic(auto)]

mod changing;
mod finding;
pub mod making;
pub mod memory;
mod pack;
mod row;
mod rows;
pub mod run;
pub mod runfilm;
