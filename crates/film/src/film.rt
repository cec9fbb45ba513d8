// What every film can do.
ghost use Rattle.std.specs.Prelude.{◌≡◌, length};
ghost use Rattle.film.specs.Faults.{answered};
ghost use Rattle.film.specs.Film.{Meaning, Beside, read_of, SpanWritten};
ghost use Rattle.film.specs.Made.{frame_of};
ghost use Rattle.film.specs.Packed.{pack_answer, packed};

use crate::bytes::with_bit;
use crate::fault::FilmFault;
use crate::numbers::Numbers;
use crate::span::Span;

pub trait Film {
    // The numbers, and for each pixel dark or clear.
    ghost meaning: { Self → Meaning };

    // What its memory and the films below hold beside these pixels: no call on the film alters it.
    ghost beside: { Self → Beside };

    fn numbers(&self) -> Numbers
        ensures { frame_of result ≡ (meaning self.now).frame };

    // Whether the pixel is dark.
    fn read(&self, col: u32, row: u32) -> Result<bool, FilmFault>
        ensures { answered result ≡ read_of (meaning self.now) col row };

    // Makes the pixels of a span dark or clear.
    fn write_span(&mut self, span: Span, dark: bool) -> Result<(), FilmFault>
        ensures written { SpanWritten (meaning self.old) span.row span.first span.end dark (answered result) (meaning self.new) }
        ensures beside { beside self.new ≡ beside self.old };

    // Puts a row's bitmap bytes at the front of `out`.
    fn pack_row(&self, row: u32, out: &mut [u8]) -> Result<(), FilmFault>
        ensures answer { answered result ≡ pack_answer (meaning self.now) row (length out.old) }
        ensures bytes { out.new ≡ packed (meaning self.now) row out.old }
    {
        let bytes = self.numbers().packed_length(row, out.len())?;
        for (k, packed) in out[..bytes].iter_mut().enumerate() {
            let mut byte = 0;
            for j in 0..8 {
                let pixel = self.read(8 * k as u32 + j, row);
                byte = with_bit(byte, pixel.unwrap_or(false));
            }
            *packed = byte;
        }
        Ok(())
    }
}
