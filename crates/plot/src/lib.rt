// The calls on a film.
//
// `plot` plots a file on a whole film, `window_plot` within a window of it, `blank` makes a film clear,
// and `expose` serves a list of such requests and of readings, and answers each. All work on any film.
//
// A plot looks at its window first, then reads the file into the caller's slots, and lays its objects
// only once the whole file is accepted; a refused plot alters no pixel. What the calls promise is stated
// by the definitions of the crate `history`: every pixel shows the last thing that covered it, each
// answer is by the rules and by what the calls before it left, and the slots hold the records taken.
// specs/Requests.antt says which plain values requests, answers and slots stand for.
#![tactic(auto)]

pub mod blanking;
pub mod exposing;
pub mod plotting;
pub mod requests;
