// Commands, records and refusals in words, for people.
//
// `InWords` shows a command, and `Numbered` a record with its number, by `Display`. `Refusal` is
// made from any refusal of a file or a film: its number, place, count and reason; which number that
// is, is pinned by the definitions of the layers that refuse.
#![tactic(auto)]

pub mod commands_in_words;
pub mod records_in_words;
pub mod refusals;

/// A value as it is shown to people.
#[derive(Clone, Copy)]
pub struct InWords<T>(pub T);
