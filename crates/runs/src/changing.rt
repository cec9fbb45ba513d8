// Changing the runs of a row.
ghost use Rattle.std.specs.Prelude.{◌≡◌, ◌+◌, ◌*◌, ◌<◌, ◌≤◌, true, ◌++◌, length, take, drop};
ghost use Rattle.std.specs.List.{insert};
ghost use Rattle.runs.specs.Held.{held, SameSlots};
ghost use Rattle.runs.specs.Rows.{darkened, cleared, trimmed, row_ok, RowWritten};

use crate::finding::{join, past};
use crate::row::Row;
use crate::run::Run;

impl<'a> Row<'a> {
    fn runs(&self) -> &[Run]
        ensures { result.now ≡ held self.now }
    {
        let slots: &[Run] = self.slots;
        &slots[..self.len]
    }

    // Puts a run at place `k`, and moves what stood there and after it on by one.
    fn insert(&mut self, k: usize, run: Run)
        requires { (k ≤ self.old.len) × (self.old.len < length self.old.slots.now) }
        ensures runs { held self.new ≡ insert (held self.old) k run }
        ensures same { SameSlots self.old self.new }
    {
        self.slots[self.len] = run;
        self.slots[k..=self.len].rotate_right(1);
        self.len += 1;
    }

    // Takes the runs from place `k` to `j`, which is not one of them, out.
    fn cut_out(&mut self, k: usize, j: usize)
        requires { (k ≤ j) × (j ≤ self.old.len) }
        ensures runs { held self.new ≡ take k (held self.old) ++ drop j (held self.old) }
        ensures same { SameSlots self.old self.new }
    {
        self.slots[k..self.len].rotate_left(j - k);
        self.len -= j - k;
    }

    // Joins a run with those that it meets or touches.
    fn darken(&mut self, run: Run)
        requires { length (darkened run.first run.end (held self.old)) ≤ length self.old.slots.now }
        ensures runs { held self.new ≡ darkened run.first run.end (held self.old) }
        ensures same { SameSlots self.old self.new }
    {
        let k = past(self.runs(), run.first);
        let (joined, count) = join(&self.runs()[k..], run);
        self.cut_out(k, k + count);
        self.insert(k, joined);
    }

    // Begins the run at place `j` no earlier than `end`, where there is one.
    fn trim(&mut self, j: usize, end: u32)
        requires { j ≤ self.old.len }
        ensures runs { held self.new ≡ take j (held self.old) ++ trimmed end (drop j (held self.old)) }
        ensures same { SameSlots self.old self.new }
    {
        if j < self.len {
            let first = self.slots[j].first;
            self.slots[j].first = first.max(end);
        }
    }

    // Takes the columns of a run out of those that it meets.
    fn clear(&mut self, run: Run)
        requires room { length (cleared run.first run.end (held self.old)) ≤ length self.old.slots.now }
        requires columns { (run.first < run.end) × (run.end ≤ 60000) }
        ensures runs { held self.new ≡ cleared run.first run.end (held self.old) }
        ensures same { SameSlots self.old self.new }
    {
        let k = past(self.runs(), run.first + 1);
        let j = past(self.runs(), run.end + 1);
        if k >= self.len {
            return;
        }
        let first = self.slots[k].first;
        self.trim(j, run.end);
        self.cut_out(k, j);
        if first < run.first {
            let left = Run {
                first,
                end: run.first,
            };
            self.insert(k, left);
        }
    }

    // Writes the columns of a run, of a row of `width` columns, which a film's numbers have.
    fn write(&mut self, width: u32, run: Run, dark: bool)
        requires ready { (row_ok 0 width (held self.old) ≡ true) × (width ≤ 2 * length self.old.slots.now) }
        requires columns { (run.first ≤ run.end) × ((run.end ≤ width) × (width ≤ 60000)) }
        ensures row { RowWritten width (held self.old) run.first run.end dark (held self.new) }
        ensures same { SameSlots self.old self.new }
    {
        if run.first >= run.end {
            return;
        }
        if dark {
            self.darken(run);
        } else {
            self.clear(run);
        }
    }
}

// Writes the columns of a run into a row whose runs are the first `len` of its slots, and answers
// how many they then are. A function of its own, since a struct over a part of a slice does not
// say what the slice holds afterwards.
pub(crate) fn write_runs(slots: &mut [Run], len: usize, width: u32, run: Run, dark: bool) -> usize
    requires ready { (row_ok 0 width (take len slots.old) ≡ true) × ((len ≤ length slots.old) × (width ≤ 2 * length slots.old)) }
    requires columns { (run.first ≤ run.end) × ((run.end ≤ width) × (width ≤ 60000)) }
    ensures row { RowWritten width (take len slots.old) run.first run.end dark (take result slots.new) }
    ensures bound { result ≤ length slots.old }
{
    let mut row = Row { slots, len };
    row.write(width, run, dark);
    row.len
}
