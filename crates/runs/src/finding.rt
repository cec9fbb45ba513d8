// The runs of a row, ascending and never touching: what stands where.
ghost use Rattle.std.specs.Prelude.{◌≡◌, ◌≤◌, ◌∷◌, length, drop, nat_le, nat_lt};
ghost use Rattle.std.specs.List.{list_any, prefix_len};
ghost use Rattle.runs.specs.Rows.{in_run, absorbed};

use crate::run::Run;

impl Run {
    // Whether it holds the column.
    fn holds(self, col: u32) -> bool
        ensures { result ≡ in_run self col }
    {
        self.first <= col && col < self.end
    }

    // Whether it meets or touches a run that ends at `end` and began no later.
    fn meets(self, end: u32) -> bool
        ensures { result ≡ nat_le self.first end }
    {
        self.first <= end
    }
}

// Whether one of the runs holds the column.
pub(crate) fn holds(row: &[Run], col: u32) -> bool
    ensures { result ≡ list_any (λ run. in_run run col) row.now }
{
    // a loop and no `any`: through a negative a row is packed pixel by pixel, each by this search
    for run in row {
        if run.holds(col) {
            return true;
        }
    }
    false
}

// How many runs, from the first on, end before `limit`.
pub(crate) fn past(row: &[Run], limit: u32) -> usize
    ensures count { result ≡ prefix_len (λ x. nat_lt x.end limit) row.now }
    ensures bound { result ≤ length row.now }
{
    row.iter().take_while(|run| run.end < limit).count()
}

// The run that joins this one to all that it meets or touches of the runs in front, and how many these are.
pub(crate) fn join(row: &[Run], run: Run) -> (Run, usize)
    ensures { (absorbed run.first run.end row.now ≡ result.0 ∷ drop result.1 row.now) × (result.1 ≤ length row.now) }
{
    let mut joined = run;
    // How far it goes depends on what is joined so far, so that it is counted on the way.
    let mut count = 0;
    for next in row {
        if !next.meets(joined.end) {
            break;
        }
        joined = Run {
            first: joined.first.min(next.first),
            end: joined.end.max(next.end),
        };
        count += 1;
    }
    (joined, count)
}
