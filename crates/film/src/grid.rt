// A film's numbers before they are looked at.
#[derive(Clone, Copy, PartialEq, Eq, Debug)]
pub struct Grid {
    // In pixels.
    pub width: u32,
    pub height: u32,
    // In ticks, as the origin is: the lower left corner of the lowest, leftmost pixel.
    pub pitch: u32,
    pub ox: i32,
    pub oy: i32,
}
