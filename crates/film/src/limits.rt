// Numbers, pixels, spans and windows against their limits.
ghost use Rattle.std.specs.Prelude.{◌≡◌, ◌*◌, ◌≤◌, ◌&&◌, nat_lt};
ghost use Rattle.film.specs.Film.{span_on};
ghost use Rattle.film.specs.Frame.{sized, in_limits, EveryCentre};
ghost use Rattle.film.specs.Made.{grid_frame, frame_of, NumbersMade, window_on, centred};
ghost use Rattle.film.specs.Faults.{answered};
ghost use Rattle.film.specs.Packed.{RowLength, packed_length};

use crate::bytes;
use crate::fault::FilmFault;
use crate::grid::Grid;
use crate::numbers::Numbers;
use crate::span::Span;
use crate::window::Window;

// Whether the first and the last of so many centres from an origin on lie where a centre may.
fn is_centred(origin: i32, pitch: u32, count: u32) -> bool
    requires { (count * pitch ≤ 60000) × ((1 ≤ count) × (pitch ≤ 64)) }
    ensures { result ≡ centred origin pitch count }
{
    let first = i64::from(origin) + i64::from(pitch / 2);
    let last = first + i64::from(pitch * (count - 1));
    first >= -30000 && last <= 90000
}

impl Grid {
    // Whether the sizes and the pitch are within the limits.
    fn is_sized(self) -> bool
        ensures { result ≡ sized self.width self.height self.pitch }
    {
        let (width, height) = (u64::from(self.width), u64::from(self.height));
        let pitch = u64::from(self.pitch);
        self.width >= 1
            && self.height >= 1
            && (2..=64).contains(&self.pitch)
            && self.pitch % 2 == 0
            && width * pitch <= 60000
            && height * pitch <= 60000
    }

    // Whether these numbers are within the limits.
    fn is_within(self) -> bool
        ensures { result ≡ in_limits (grid_frame self) }
    {
        self.is_sized()
            && is_centred(self.ox, self.pitch, self.width)
            && is_centred(self.oy, self.pitch, self.height)
    }
}

impl Numbers {
    pub fn new(grid: Grid) -> Result<Numbers, FilmFault>
        ensures { NumbersMade (grid_frame grid) result }
    {
        if !grid.is_within() {
            return Err(FilmFault::Limits);
        }
        Ok(Numbers {
            width: grid.width,
            height: grid.height,
            pitch: grid.pitch,
            ox: grid.ox,
            oy: grid.oy,
        })
    }

    // Whether the pixel lies on a film of these numbers.
    pub fn has_pixel(self, col: u32, row: u32) -> bool
        ensures { result ≡ (nat_lt col self.width && nat_lt row self.height) }
    {
        col < self.width && row < self.height
    }

    // Whether the span lies on a film of these numbers.
    pub fn has_span(self, span: Span) -> bool
        ensures { result ≡ span_on (frame_of self) span.row span.first span.end }
    {
        span.row < self.height && span.first <= span.end && span.end <= self.width
    }

    // A whole row.
    pub fn whole_row(self, row: u32) -> Span
        ensures { (result.row ≡ row) × ((result.first ≡ 0) × (result.end ≡ self.width)) }
    {
        Span {
            row,
            first: 0,
            end: self.width,
        }
    }

    // The window of all its pixels.
    pub fn whole(self) -> Window
        ensures { result ≡ record { x = 0; y = 0; width = self.width; height = self.height } }
    {
        Window {
            x: 0,
            y: 0,
            width: self.width,
            height: self.height,
        }
    }

    // Whether the window holds a pixel and lies on a film of these numbers.
    pub fn has(self, v: Window) -> bool
        ensures { result ≡ window_on (frame_of self) v }
    {
        v.width >= 1
            && v.height >= 1
            && v.x <= self.width
            && v.width <= self.width - v.x
            && v.y <= self.height
            && v.height <= self.height - v.y
    }

    // The bytes of a row.
    pub fn row_length(self) -> usize
        ensures { RowLength self.width result }
    {
        bytes::row_length(self.width)
    }

    // The bytes of a row that is to be packed into an output of so many bytes.
    pub fn packed_length(self, row: u32, room: usize) -> Result<usize, FilmFault>
        ensures { answered result ≡ packed_length (frame_of self) row room }
    {
        if row >= self.height {
            return Err(FilmFault::Off);
        }
        let bytes = self.row_length();
        if room < bytes {
            return Err(FilmFault::Short);
        }
        Ok(bytes)
    }
}

// The limits speak of every pixel's centre.
pub fn limits_hold_of_every_centre() -> u8
    ensures law { EveryCentre }
    ensures value { result ≡ 0 }
{
    0
}
