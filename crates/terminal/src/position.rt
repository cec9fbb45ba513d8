// Line and column of a place in a file, for people.
ghost use Rattle.std.specs.Prelude.{◌≡◌, ◌+◌, ◌-◌, ◌^◌, ◌<◌, ◌≤◌, min, length};
ghost use Rattle.terminal.specs.Positions.{Stands, ends_line};

/// A place in a file, the number of its line, from 1, and the place where that line starts.
#[derive(Clone, Copy)]
pub struct Position<'a> {
    pub file: &'a [u8],
    pub place: usize,
    pub line: usize,
    pub start: usize,
    pub ghost stands: { Stands file.now place line start },
    pub ghost bound: { line ≤ place + 1 },
}

// A line ends behind LF, or behind CR where no LF follows.
fn ends_line(file: &[u8], i: usize) -> bool
    requires { i < length file.now }
    ensures { result ≡ ends_line file.now i }
{
    file[i] == b'\n' || (file[i] == b'\r' && file.get(i + 1) != Some(&b'\n'))
}

impl<'a> Position<'a> {
    /// The first place of a file.
    pub fn first(file: &'a [u8]) -> Position<'a>
        ensures file { result.file.now ≡ file.now }
        ensures place { result.place ≡ 0 }
    {
        Position {
            file,
            place: 0,
            line: 1,
            start: 0,
        }
    }

    /// The column, from 1.
    pub fn column(self) -> usize
        ensures { result ≡ min (self.entry.place - self.entry.start + 1) (2 ^ 64 - 1) }
    {
        self.place.saturating_sub(self.start).saturating_add(1)
    }

    // One place on.
    fn step(self) -> Position<'a>
        requires { self.place < length self.file.now }
        ensures file { result.file.now ≡ self.entry.file.now }
        ensures place { result.place ≡ self.entry.place + 1 }
    {
        let place = self.place + 1;
        let (line, start) = if ends_line(self.file, self.place) {
            (self.line + 1, place)
        } else {
            (self.line, self.start)
        };
        Position {
            file: self.file,
            place,
            line,
            start,
        }
    }

    /// The position of `to`, or of the end of the file where `to` lies past it, from one that lies
    /// before.
    pub fn advance(self, to: usize) -> Position<'a>
        ensures file { result.file.now ≡ self.entry.file.now }
        ensures place { self.entry.place ≤ to → to ≤ length self.entry.file.now → result.place ≡ to }
    {
        let mut at = self;
        // a step for each byte, since what ends a line is seen at two
        for _ in self.place..to.min(self.file.len()) {
            at = at.step();
        }
        at
    }
}
