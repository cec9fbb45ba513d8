// What both programs do at the terminal.
//
// `Stop` is what ends a program early; its reason is told on standard error at once. `list_commands`
// lists the commands of a file, `expose_card` draws a test card, and `put_sheet` writes any film as a
// PBM sheet. A file that is refused is told with line and column, which `Position` knows.
#![tactic(auto)]

pub mod card;
pub mod files;
pub mod listing;
pub mod position;
pub mod sheets;
pub mod stop;
