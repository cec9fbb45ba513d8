// A film's numbers, which keep the limits.
ghost use Rattle.std.specs.Prelude.{◌≡◌, true};
ghost use Rattle.film.specs.Frame.{framed, in_limits};

#[derive(Clone, Copy, PartialEq, Eq, Debug)]
pub struct Numbers {
    // In pixels.
    pub width: u32,
    pub height: u32,
    // In ticks, as the origin is: the lower left corner of the lowest, leftmost pixel.
    pub pitch: u32,
    pub ox: i32,
    pub oy: i32,
    ghost ok: { in_limits (framed width height pitch ox oy) ≡ true },
}
