// The command layer: a file's bytes become commands, one after another.
//
// `next_command` reads the next word of a file and tells its form; the text of a whole command is
// seen to first, then its form. The format in force, the last one that the file has set, says how
// many digits a value may have. `count_commands` goes through a whole file, up to M02, by text and
// form alone; whether a command may stand where it does is the next layer's to say.
//
// A refusal is a `CommandFault`, which carries a `TextFault` whole. specs/Files.antt says which
// number, place and count each refusal tells (`command_told`), and what is read from which file.

#![tactic(auto)]

ghost use Rattle.std.specs.Prelude.{◌≡◌, length};
ghost use Rattle.commands.specs.Files.{Goes, command_at, count_commands, format_after, is_end, longest_of, seen_read, told_command};
ghost use Rattle.commands.specs.declared.CommandFault.TheVariants.{Text};
ghost use Rattle.forms.specs.Orders.{seen_command};

use forms::{Command, Format, form_of};
use words::{Cursor, TextFault};

// Why the command layer refuses a file: the text is faulty, or a command has none of the forms.
#[derive(Clone, Copy, PartialEq, Eq, Debug)]
pub enum CommandFault {
    Text(TextFault),
    // `place` is the command's first content byte, `taken` the number of commands before it
    Form { place: usize, taken: usize },
}

// by hand, so that the clause names what the fault becomes
impl From<TextFault> for CommandFault {
    ghost from_gives = { λ t r. r ≡ Text t };

    fn from(fault: TextFault) -> CommandFault {
        CommandFault::Text(fault)
    }
}

// A command, the place of its first content byte, and the offset behind it.
#[derive(Clone, Copy, PartialEq, Eq, Debug)]
pub struct Read<'a> {
    pub command: Command<'a>,
    pub place: usize,
    pub next: usize,
}

impl Read<'_> {
    // The command is M02, the last of a file.
    pub fn is_end(self) -> bool
        ensures { result ≡ is_end (seen_command self.entry.command) }
    {
        matches!(self.command, Command::EndOfFile)
    }

    // The format in force behind the command.
    pub fn format_after(self, before: Option<Format>) -> Option<Format>
        ensures { result ≡ format_after (seen_command self.entry.command) before }
    {
        match self.command {
            Command::Format { format, .. } => Some(format),
            _ => before,
        }
    }
}

// The most digits of a value: those of the format, and 12 before there is one.
fn longest_value(format: Option<Format>) -> usize
    ensures { result ≡ longest_of format }
{
    format.map_or(12, |f| f.whole as usize + f.decimals.places() as usize)
}

// The command that follows the cursor; `format` is the one in force.
#[tactic(auto, unfolding(crate::specs::Files::command_at))]
pub fn next_command<'a>(
    cursor: Cursor<'a>,
    format: Option<Format>,
) -> Result<Read<'a>, CommandFault>
    ensures value { seen_read result ≡ command_at cursor.entry.taken cursor.entry.file.now cursor.entry.at format }
    ensures moves { Goes cursor.entry.at (length cursor.entry.file.now) result }
{
    let word = cursor.next_word()?;
    let place = word.content.at;
    let fault = CommandFault::Form {
        place,
        taken: cursor.taken,
    };
    Ok(Read {
        command: form_of(word, longest_value(format)).ok_or(fault)?,
        place,
        next: word.next,
    })
}

// How many commands a file has by text and form alone: up to M02, behind which nothing but CR and LF stands.
#[tactic(auto, unfolding(crate::specs::Files::ended))]
pub fn count_commands(file: &[u8]) -> Result<usize, CommandFault>
    ensures { told_command result ≡ count_commands file.now }
{
    let mut cursor = Cursor::start(file);
    let mut format = None;
    // a loop and no iterator: it ends behind M02, and each turn reads by the format of the last
    loop {
        let read = next_command(cursor, format)?;
        cursor = cursor.behind(read.next);
        if read.is_end() {
            cursor.close()?;
            return Ok(cursor.taken);
        }
        format = read.format_after(format);
    }
}
