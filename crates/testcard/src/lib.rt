// A test card: what a workshop exposes to set a plotter up.
//
// `draw_test_card` draws it over all of any film, by spans of rows: a border one pixel wide,
// which shows whether the whole film is exposed; squares of eight by eight pixels that step down
// from the top left corner, which show whether both axes are to one scale; and a cross over the
// middle half of the film, for the centre. Everything else becomes clear.
// It works on films of every size, and on piles, so that a card drawn through a negative of a
// cut-out gives a corner with dark and clear exchanged.
#![tactic(auto)]

mod bars;
pub mod card;
