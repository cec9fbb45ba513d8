// Columns `first` to `end`, which is not one of them, of a row.
#[derive(Clone, Copy, PartialEq, Eq, Debug)]
pub struct Span {
    pub row: u32,
    pub first: u32,
    pub end: u32,
}
