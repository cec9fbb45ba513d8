ghost use Rattle.std.specs.Prelude.{◌≡◌};

use film::span::Span;

// Columns `first` to `end` - 1 of rows `top` to `foot` - 1.
#[derive(Clone, Copy)]
pub(crate) struct Area {
    pub(crate) first: u32,
    pub(crate) end: u32,
    pub(crate) top: u32,
    pub(crate) foot: u32,
}

impl Area {
    // Its columns of a row.
    pub(crate) fn row(self, row: u32) -> Span
        ensures row { result.row ≡ row }
        ensures first { result.first ≡ self.first }
        ensures end { result.end ≡ self.end }
    {
        Span {
            row,
            first: self.first,
            end: self.end,
        }
    }
}
