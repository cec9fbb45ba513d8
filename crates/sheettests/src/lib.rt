// Tests of the sheet and the test card, over both bare films and piles of them.
//
// The proofs say more than these tests; they show the calls at work, on the compiled code.
#![tactic(auto)]

#[cfg(test)]
mod tests;
