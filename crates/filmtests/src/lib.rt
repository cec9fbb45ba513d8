// Tests of the films: limits, both bare films, and piles four deep over each.
//
// A film here is 8 by 4 pixels, so that a row is one byte and a picture four of them. The films'
// proofs say more than these tests; they show the calls at work, on the compiled code.
#![tactic(auto)]

#[cfg(test)]
mod tests;
