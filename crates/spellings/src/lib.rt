// The law of the forms: a command is its letters and its parts.
//
// Reading takes a command's content apart into letters, that are the same for every command of a
// form, and parts that the command holds with their places. The law says that no byte is lost or
// moved: letters and parts written in order are the content again, and each part stands in the file
// where it says.
//
// specs/Spellings.antt has how each command is written, and the law.

#![tactic(auto)]

ghost use Rattle.spellings.specs.Spellings.{CommandsAreTheirParts};

// The law, of every word that has a form.
pub fn commands_are_their_parts() -> u8
    ensures { CommandsAreTheirParts }
{
    0
}
