// Tests of reading whole files into records: each refusal of a command, the order of checks, the
// limits of the tables, and files that use every command.
//
// `reading` reads a file with slots that the test lends and tells what it answers: 0 with the counts,
// or a refusal's number, place and count of commands taken. The crate has nothing but tests.
#![tactic(auto)]

#[cfg(test)]
mod limits;
#[cfg(test)]
mod reading;
#[cfg(test)]
mod refusals;
#[cfg(test)]
mod slots;
