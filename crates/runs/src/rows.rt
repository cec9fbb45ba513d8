// A row of the film, in its counts and slots.
ghost use Rattle.std.specs.Prelude.{◌≡◌, ◌+◌, ◌*◌, ◌<◌, ◌≤◌, true, length, take, drop};
ghost use Rattle.runs.specs.Rows.{row_ok, RowWritten};
ghost use Rattle.runs.specs.Slots.{row_slots, runs_of, row_sound};
ghost use Rattle.runs.specs.Changed.{Within, RowChanged};

use crate::changing::write_runs;
use crate::run::Run;
use crate::runfilm::RunFilm;
use film::span::Span;

// The slots of a row of so many columns.
pub(crate) fn row_slots(width: u32) -> usize
    ensures { result ≡ row_slots width }
{
    (width as usize).div_ceil(2)
}

impl RunFilm {
    // The runs of a row.
    pub(crate) fn runs(&self, row: u32) -> &[Run]
        requires { row < self.now.numbers.height }
        ensures { result.now ≡ runs_of self.now.memory.counts.items self.now.memory.slots.items self.now.numbers.width row }
    {
        let start = row as usize * row_slots(self.numbers.width);
        let count = self.memory.counts[row as usize] as usize;
        &self.memory.slots[start..start + count]
    }
}

// Writes the span of a row.
pub(crate) fn write_row(counts: &mut [u32], slots: &mut [Run], width: u32, span: Span, dark: bool)
    requires ready { (row_sound counts.old slots.old width span.row ≡ true) × ((span.row < length counts.old) × (span.row * row_slots width + row_slots width ≤ length slots.old)) }
    requires span { (span.first ≤ span.end) × ((span.end ≤ width) × (width ≤ 60000)) }
    ensures { RowChanged width counts.old slots.old span.row span.first span.end dark counts.new slots.new }
{
    let room = row_slots(width);
    let start = span.row as usize * room;
    let len = counts[span.row as usize] as usize;
    let run = Run {
        first: span.first,
        end: span.end,
    };
    let len = write_runs(&mut slots[start..start + room], len, width, run, dark);
    counts[span.row as usize] = len as u32;
}
