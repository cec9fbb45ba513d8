// Drawing the card on any film.
ghost use Rattle.std.specs.Prelude.{◌≡◌, ◌<◌, ◌≤◌, true, false};
ghost use Rattle.film.specs.Made.{frame_of};
ghost use Rattle.testcard.specs.Card.{card_pixel};
ghost use Rattle.testcard.specs.Drawn.{CardDrawn, DrawnFrom, RowShows, Marked};

use crate::bars::{arm_bar, left_bar, post_bar, right_bar, step_bar};
use film::film::Film;
use film::numbers::Numbers;
use film::span::Span;

// Makes every pixel of a row clear.
fn clear_row<F: Film>(film: &mut F, n: Numbers, row: u32)
    requires { (frame_of n ≡ (F.meaning film.old).frame) × (row < n.height) }
    ensures shows { RowShows (F.meaning film.old) row (λ _. false) (F.meaning film.new) }
    ensures beside { F.beside film.new ≡ F.beside film.old }
{
    // The row is on the film, so that this is not refused.
    let _ = film.write_span(n.whole_row(row), false);
}

// Makes a bar of a row dark.
fn mark<F: Film>(film: &mut F, bar: Span)
    requires { (bar.row < (F.meaning film.old).frame.height) × ((bar.first ≤ bar.end) × (bar.end ≤ (F.meaning film.old).frame.width)) }
    ensures marked { Marked (F.meaning film.old) bar.row bar.first bar.end (F.meaning film.new) }
    ensures beside { F.beside film.new ≡ F.beside film.old }
{
    // The bar is on the film, so that this is not refused.
    let _ = film.write_span(bar, true);
}

// Draws one row of the card.
fn draw_row<F: Film>(film: &mut F, n: Numbers, row: u32)
    requires { (frame_of n ≡ (F.meaning film.old).frame) × (row < n.height) }
    ensures shows { RowShows (F.meaning film.old) row (λ c. card_pixel n.width n.height c row) (F.meaning film.new) }
    ensures beside { F.beside film.new ≡ F.beside film.old }
{
    clear_row(film, n, row);
    // One bar a line: a list of them to go over would say no more.
    mark(film, left_bar(n, row));
    mark(film, right_bar(n, row));
    mark(film, step_bar(n, row));
    mark(film, arm_bar(n, row));
    mark(film, post_bar(n, row));
}

// Draws the card's rows from one row down to the last.
fn draw_rows<F: Film>(film: &mut F, first: u32)
    ensures drawn { DrawnFrom (F.meaning film.old) first (F.meaning film.new) }
    ensures beside { F.beside film.new ≡ F.beside film.old }
{
    let n = film.numbers();
    for row in first..n.height {
        draw_row(film, n, row);
    }
}

// Draws the test card over all of a film.
pub fn draw_test_card<F: Film>(film: &mut F)
    ensures drawn { CardDrawn (F.meaning film.old) (F.meaning film.new) }
    ensures beside { F.beside film.new ≡ F.beside film.old }
{
    draw_rows(film, 0);
}
