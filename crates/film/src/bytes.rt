// A row of pixels as bytes.
ghost use Rattle.std.specs.Prelude.{◌≡◌, ◌+◌, ◌*◌, ◌<◌, if◌then◌else◌};
ghost use Rattle.film.specs.Packed.{bytes_for};

// The bytes of a row of so many pixels.
pub fn row_length(width: u32) -> usize
    ensures { result ≡ bytes_for width }
{
    (width as usize).div_ceil(8)
}

// The bits of a byte moved up by one, with one more below them.
pub(crate) fn with_bit(byte: u8, dark: bool) -> u8
    requires { byte < 128 }
    ensures { result ≡ 2 * byte + (if dark then 1 else 0) }
{
    2 * byte + u8::from(dark)
}
