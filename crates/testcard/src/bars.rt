// The parts of the card in one row, each a span of it.
ghost use Rattle.std.specs.Prelude.{◌≡◌, ◌+◌, ◌<◌, ◌||◌, ◌==◌, nat_eq};
ghost use Rattle.testcard.specs.Card.{on_steps, on_arm, on_post};
ghost use Rattle.testcard.specs.Drawn.{Covers};

use film::numbers::Numbers;
use film::span::Span;

// No pixel of a row.
fn nothing(row: u32) -> Span
    ensures { (result.row ≡ row) × ((result.first ≡ 0) × (result.end ≡ 0)) }
{
    Span {
        row,
        first: 0,
        end: 0,
    }
}

// The left edge, which is the whole row at the top and at the bottom. (The one loop over the rows
// keeps `row` below the height.)
pub(crate) fn left_bar(n: Numbers, row: u32) -> Span
    requires { row < n.height }
    ensures row { result.row ≡ row }
    ensures covers { Covers n.width result.first result.end (λ c. (c == 0) || (row == 0 || row + 1 == n.height)) }
{
    if row == 0 || row == n.height - 1 {
        return n.whole_row(row);
    }
    Span {
        row,
        first: 0,
        end: 1,
    }
}

// The right edge.
pub(crate) fn right_bar(n: Numbers, row: u32) -> Span
    ensures row { result.row ≡ row }
    ensures covers { Covers n.width result.first result.end (λ c. nat_eq (c + 1) n.width) }
{
    Span {
        row,
        first: n.width - 1,
        end: n.width,
    }
}

// The square of the steps.
pub(crate) fn step_bar(n: Numbers, row: u32) -> Span
    ensures row { result.row ≡ row }
    ensures covers { Covers n.width result.first result.end (λ c. on_steps c row) }
{
    let first = row / 8 * 8;
    if first >= n.width {
        return nothing(row);
    }
    Span {
        row,
        first,
        end: n.width.min(first + 8),
    }
}

// The arm of the cross.
pub(crate) fn arm_bar(n: Numbers, row: u32) -> Span
    ensures row { result.row ≡ row }
    ensures covers { Covers n.width result.first result.end (λ c. on_arm n.width n.height c row) }
{
    if row != n.height / 2 {
        return nothing(row);
    }
    Span {
        row,
        first: n.width / 4,
        end: n.width - n.width / 4,
    }
}

// The post of the cross.
pub(crate) fn post_bar(n: Numbers, row: u32) -> Span
    ensures row { result.row ≡ row }
    ensures covers { Covers n.width result.first result.end (λ c. on_post n.width n.height c row) }
{
    if row < n.height / 4 || row >= n.height - n.height / 4 {
        return nothing(row);
    }
    Span {
        row,
        first: n.width / 2,
        end: n.width / 2 + 1,
    }
}
