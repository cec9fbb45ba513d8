// Painting on a pane, row by row.
ghost use Rattle.std.specs.Prelude.{◌≡◌, ◌<◌, ◌≤◌, ◌&&◌};
ghost use Rattle.film.specs.Film.{in_span};
ghost use Rattle.paint.specs.Painted.{centre_covered, in_area, in_window};
ghost use Rattle.paint.specs.Panes.{Repainted, on_film, seen_pane};

use crate::area::Area;
use crate::clipping::{centre, clip};
use crate::pane::Pane;
use film::film::Film;
use film::span::Span;
use film::window::Window;
use shapes::shape::Shape;

impl<'a, F: Film> Pane<'a, F> {
    // It refuses no window: in a `Result` a caller would lose at the refusal what the film holds.
    /// The part of the window that lies on the film.
    pub fn new(film: &'a mut F, window: Window) -> Pane<'a, F>
        ensures same { result.film.now ≡ film.old }
        ensures window { result.window ≡ on_film (F.meaning film.old).frame window }
        ensures lent { result.film.ghost_name ≡ film.entry.ghost_name }
    {
        let numbers = film.numbers();
        let x = window.x.min(numbers.width);
        let y = window.y.min(numbers.height);
        let window = Window {
            x,
            y,
            width: window.width.min(numbers.width - x),
            height: window.height.min(numbers.height - y),
        };
        Pane {
            film,
            numbers,
            window,
        }
    }

    // Writes a span that is on the film.
    fn put(&mut self, span: Span, dark: bool)
        requires { (span.row < self.old.numbers.height) × ((span.first ≤ span.end) × (span.end ≤ self.old.numbers.width)) }
        ensures { Repainted (seen_pane self.old) (in_span span.row span.first span.end) dark (seen_pane self.new) }
    {
        // The span is on the film, so that this is not refused.
        let _ = self.film.write_span(span, dark);
    }

    // Paints the covered pixels of a span.
    fn paint_span<S: Shape>(&mut self, shape: &S, span: Span, dark: bool)
        requires { (span.row < self.old.numbers.height) × ((span.first ≤ span.end) × (span.end ≤ self.old.numbers.width)) }
        ensures { Repainted (seen_pane self.old) (λ c r. in_span span.row span.first span.end c r && centre_covered (F.meaning self.old.film.now) (S.covered shape.now) c r) dark (seen_pane self.new) }
    {
        // read once, since the film may be written between two columns
        let numbers = self.numbers;
        let mut rest = span;
        // The number of the column says where its centre lies.
        for col in span.first..span.end {
            if !shape.covers(centre(numbers, col, span.row)) {
                self.put(Span { end: col, ..rest }, dark);
                rest.first = col + 1;
            }
        }
        self.put(rest, dark);
    }

    // Paints the covered pixels of an area.
    fn paint_area<S: Shape>(&mut self, shape: &S, area: Area, dark: bool)
        requires { (area.first ≤ area.end) × ((area.end ≤ self.old.numbers.width) × ((area.top ≤ area.foot) × (area.foot ≤ self.old.numbers.height))) }
        ensures { Repainted (seen_pane self.old) (λ c r. in_area area.first area.end area.top area.foot c r && centre_covered (F.meaning self.old.film.now) (S.covered shape.now) c r) dark (seen_pane self.new) }
    {
        for row in area.top..area.foot {
            self.paint_span(shape, area.row(row), dark);
        }
    }

    /// Gives every pixel of the window whose centre the shape covers the colour `dark`.
    pub fn paint<S: Shape>(&mut self, shape: &S, dark: bool)
        ensures { Repainted (seen_pane self.old) (λ c r. in_window self.old.window c r && centre_covered (F.meaning self.old.film.now) (S.covered shape.now) c r) dark (seen_pane self.new) }
    {
        let area = clip(self.numbers, self.window, shape.bounds());
        self.paint_area(shape, area, dark);
    }
}
