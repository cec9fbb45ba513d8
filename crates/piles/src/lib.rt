// Films over films: each shows the film below in another way, and is a film again.
//
// `Negative` exchanges dark and clear, `Mirror` left and right, and `CutOut` shows a window.
// Each holds the film below by value, works over any film, and gives it back by `into_below`;
// so they pile in any order and to any height, and are taken apart again.
// What is written on a pile is written below, where the pile shows it, and nothing else is.
// `into_below` is one line in each film over a film, so that a trait for it would say no more.
// `laws` says how piles compare: a mirror's mirror is the film, and so on.
#![tactic(auto)]

pub mod cutout;
pub mod cutting;
pub mod laws;
pub mod mirror;
pub mod negative;
