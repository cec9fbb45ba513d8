// Laws of reading a file, in the subject's words.
//
// The rules say command by command what reading does. These laws say what follows for whole files,
// whatever they hold:
// - more slots change nothing, but for a file that is refused because a table is full;
// - an accepted file has the records that its commands make, and its last command is M02;
// - comments, attributes, gaps and the spelling of numbers change no record;
// - an accepted file that is cut before the end of its M02 is refused.
// Each stands on the contract of a function that answers 0. specs/Laws.antt has what they say.

#![tactic(auto)]

ghost use Rattle.filelaws.specs.Laws.{CutIsRefused, EndsAtM02, FullTablesOnlyDecide29, RecordsByCommands, RemarksChangeNothing};
ghost use Rattle.std.specs.Prelude.{◌≡◌};

// More slots change nothing for a file that is not refused because a table is full.
pub fn full_tables_only_decide_29() -> u8
    ensures law { FullTablesOnlyDecide29 }
    ensures value { result ≡ 0 }
{
    0
}

// The records of an accepted file are those that its commands make, one after another.
pub fn records_by_commands() -> u8
    ensures law { RecordsByCommands }
    ensures value { result ≡ 0 }
{
    0
}

// The last command of an accepted file is M02.
pub fn ends_at_m02() -> u8
    ensures law { EndsAtM02 }
    ensures value { result ≡ 0 }
{
    0
}

// Accepted files that have the same commands, but for comments, attributes, gaps and the spelling of
// numbers, have the same records.
pub fn remarks_change_nothing() -> u8
    ensures law { RemarksChangeNothing }
    ensures value { result ≡ 0 }
{
    0
}

// A file that is accepted, and still is once it is cut, loses only CR and LF by the cut.
pub fn cut_is_refused() -> u8
    ensures law { CutIsRefused }
    ensures value { result ≡ 0 }
{
    0
}
