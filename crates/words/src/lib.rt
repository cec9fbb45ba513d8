// The text layer: a file's bytes become words.
//
// A command stands in the file as a word: content and `*`, or, extended, `%`, content and `*%`.
// Content is one or more bytes from 32 to 126, without `*` and `%`. CR and LF stand only between
// commands. A word is a part of the file's own bytes with its place; nothing is copied.
//
// A `Cursor` stands in a file, behind the commands that were taken. `next_word` finds the word that
// follows, `close` sees that nothing but CR and LF is left after the last.
// A refusal is a `TextFault`; it carries the place and how many commands were taken before it.
// What a word is stands in specs/Words.antt, and in specs/Spelling.antt the law that the words,
// with their marks and the gaps between them, are the file, byte for byte.

#![tactic(auto)]

ghost use Rattle.std.specs.Prelude.{◌≡◌, ◌+◌, ◌-◌, ◌^◌, ◌<◌, ◌≤◌, min, length, drop, MatchResult, slice_index};
ghost use Rattle.std.specs.List.{between, prefix_len};
ghost use Rattle.words.specs.Spelling.{ClosedByGap, WordsAreTheFile};
ghost use Rattle.words.specs.Words.{Moves, closing, content_end, fault, is_content, is_gap, next_word, seen_word, star_after, text_told, told_text, word_start, piece};

// Why the text layer refuses a file. `place` is an offset, `taken` the number of commands before it;
// each case has them, since what each refusal tells is said case by case.
#[derive(Clone, Copy, PartialEq, Eq, Debug)]
pub enum TextFault {
    // a byte that is not allowed where it stands
    Byte { place: usize, taken: usize },
    // the file ends in a command, or before its last one
    End { place: usize, taken: usize },
}

// A part of the file, and the offset where it stands.
#[derive(Clone, Copy, PartialEq, Eq, Debug)]
pub struct Part<'a> {
    pub at: usize,
    pub text: &'a [u8],
}

// The text of one command, and the offset behind its last mark.
#[derive(Clone, Copy, PartialEq, Eq, Debug)]
pub struct Word<'a> {
    // a flag and no enum, since both kinds of word have the same parts
    pub extended: bool,
    pub content: Part<'a>,
    pub next: usize,
}

// A place in a file, and how many commands were taken before it.
#[derive(Clone, Copy, PartialEq, Eq, Debug)]
pub struct Cursor<'a> {
    pub file: &'a [u8],
    pub at: usize,
    pub taken: usize,
}

fn is_gap(b: u8) -> bool
    ensures { result ≡ is_gap b }
{
    matches!(b, b'\n' | b'\r')
}

fn is_content(b: u8) -> bool
    ensures { result ≡ is_content b }
{
    matches!(b, b' '..=b'~') && !matches!(b, b'*' | b'%')
}

// How many gap bytes the text begins with. (This and the next are one line each over their bytes.)
fn gap_run(text: &[u8]) -> usize
    ensures value { result ≡ prefix_len is_gap text.now }
    ensures bound { result ≤ length text.now }
{
    text.iter().take_while(|b| is_gap(**b)).count()
}

// How many content bytes the text begins with.
fn content_run(text: &[u8]) -> usize
    ensures value { result ≡ prefix_len is_content text.now }
    ensures bound { result ≤ length text.now }
{
    text.iter().take_while(|b| is_content(**b)).count()
}

impl<'a> Cursor<'a> {
    /// The start of a file, where no command was taken.
    pub fn start(file: &'a [u8]) -> Cursor<'a>
        ensures { result ≡ record { file = file.entry; at = 0; taken = 0 } }
    {
        Cursor {
            file,
            at: 0,
            taken: 0,
        }
    }

    /// The cursor behind the command that ends at `next`, which was taken. (A count that no file can
    /// come to stays at the greatest number.)
    pub fn behind(self, next: usize) -> Cursor<'a>
        ensures value { result ≡ record { file = self.entry.file; at = next; taken = min (self.entry.taken + 1) (2 ^ 64 - 1) } }
        ensures counted { self.entry.taken < next → result ≡ record { file = self.entry.file; at = next; taken = self.entry.taken + 1 } }
    {
        Cursor {
            file: self.file,
            at: next,
            taken: self.taken.saturating_add(1),
        }
    }

    // The file ends where it may not.
    fn end_fault(self) -> TextFault
        ensures { text_told result ≡ fault 11 (length self.entry.file.now) self.entry.taken }
    {
        TextFault::End {
            place: self.file.len(),
            taken: self.taken,
        }
    }

    // The byte at `place` is not allowed there.
    fn byte_fault(self, place: usize) -> TextFault
        ensures { text_told result ≡ fault 10 place self.entry.taken }
    {
        TextFault::Byte {
            place,
            taken: self.taken,
        }
    }

    // The byte at `place`, where the file may not end.
    fn byte_at(self, place: usize) -> Result<u8, TextFault>
        ensures { MatchResult result (λ b. (place < length self.entry.file.now) × (b ≡ slice_index self.entry.file.now place)) (λ e. (length self.entry.file.now ≤ place) × (text_told e ≡ fault 11 (length self.entry.file.now) self.entry.taken)) }
    {
        self.file.get(place).copied().ok_or(self.end_fault())
    }

    // What the file has from `from` on.
    fn rest(self, from: usize) -> &'a [u8]
        ensures { result.now ≡ drop from self.entry.file.now }
    {
        &self.file[from.min(self.file.len())..]
    }

    // The first place from `at` on that holds no CR and no LF.
    fn word_start(self) -> usize
        ensures { result ≡ word_start self.entry.file.now self.entry.at }
    {
        self.at + gap_run(self.rest(self.at))
    }

    // The first place from `from` on that holds no content byte.
    fn content_end(self, from: usize) -> usize
        ensures { result ≡ content_end self.entry.file.now from }
    {
        from + content_run(self.rest(from))
    }

    // The place of the `*` that ends the content at `from`.
    fn star_after(self, from: usize) -> Result<usize, TextFault>
        ensures { told_text result ≡ star_after self.entry.taken self.entry.file.now from }
    {
        let end = self.content_end(from);
        if self.byte_at(end)? != b'*' || end == from {
            return Err(self.byte_fault(end));
        }
        Ok(end)
    }

    // The part of the file from `from` to `end`.
    fn part(self, from: usize, end: usize) -> Part<'a>
        requires { (from ≤ end) × (end ≤ length self.file.now) }
        ensures { piece result ≡ record { at = from; text = between from end self.entry.file.now } }
    {
        Part {
            at: from,
            text: &self.file[from..end],
        }
    }

    /// The next command's word.
    /// The end of the file is a refusal: a file ends by its own last command.
    pub fn next_word(self) -> Result<Word<'a>, TextFault>
        ensures value { seen_word result ≡ next_word self.entry.taken self.entry.file.now self.entry.at }
        ensures moves { Moves self.entry.at (length self.entry.file.now) result }
    {
        let start = self.word_start();
        if self.byte_at(start)? != b'%' {
            let star = self.star_after(start)?;
            return Ok(Word {
                extended: false,
                content: self.part(start, star),
                next: star + 1,
            });
        }
        let from = start + 1;
        let star = self.star_after(from)?;
        let mark = star + 1;
        if self.byte_at(mark)? != b'%' {
            return Err(self.byte_fault(mark));
        }
        Ok(Word {
            extended: true,
            content: self.part(from, star),
            next: mark + 1,
        })
    }

    /// Sees that nothing but CR and LF is left behind the last command.
    pub fn close(self) -> Result<(), TextFault>
        ensures { told_text result ≡ closing self.entry.taken self.entry.file.now self.entry.at }
    {
        let rest = self.word_start();
        if rest < self.file.len() {
            return Err(self.byte_fault(rest));
        }
        Ok(())
    }
}

// The law of the layer: gaps and words as they are written are the file, and a closed file ends in a gap.
pub fn words_are_the_file() -> u8
    ensures file { WordsAreTheFile }
    ensures closed { ClosedByGap }
{
    0
}
