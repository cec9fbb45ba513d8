// Laws of the records that reading a file takes, in the subject's words.
//
// The rules say command by command which records are taken. These laws say what holds of the records
// of every file, also of those that were taken before a refusal: their ranges, that contours are
// closed, that blocks flash only earlier blocks and are at most 8 deep, and that the laid count is
// the number of laid objects. Each stands on the contract of a function that answers 0.
// specs/Laws.antt has what they say.
#![tactic(auto)]

ghost use Rattle.recordlaws.specs.Laws.{FilesAreSound, LaidCounted};
ghost use Rattle.std.specs.Prelude.{◌≡◌};

// The records of every file are within their ranges, contours are closed, and blocks flash only
// earlier blocks and are at most 8 deep.
pub fn files_are_sound() -> u8
    ensures law { FilesAreSound }
    ensures value { result ≡ 0 }
{
    0
}

// The laid count of every file is the number of its laid objects.
pub fn laid_is_counted() -> u8
    ensures law { LaidCounted }
    ensures value { result ≡ 0 }
{
    0
}
