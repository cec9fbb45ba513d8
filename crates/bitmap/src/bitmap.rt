// A film in the bytes of a bitmap.
ghost use Rattle.std.specs.Prelude.{◌≡◌, ℕ, ◌*◌, ◌≤◌, true, false, vec_len};
ghost use Rattle.film.specs.Packed.{bytes_for};
ghost use Rattle.bitmap.specs.Pixels.{own_bytes, padding, pixel_of, bitmap_meaning, bitmap_beside};

use bits::{bit_at, fill_bits};
use film::fault::FilmFault;
use film::film::Film;
use film::numbers::Numbers;
use film::span::Span;

#[derive(Drop)]
pub struct Bitmap {
    pub(crate) bytes: Vec<u8>,
    pub(crate) numbers: Numbers,
    ghost long: { own_bytes numbers ≤ vec_len bytes },
    ghost padded: { (c r : ℕ) → padding numbers c r ≡ true → pixel_of bytes.items numbers.width c r ≡ false },
}

impl Film for Bitmap {
    ghost meaning = { λ b. bitmap_meaning b.bytes.items b.numbers };

    ghost beside = { λ b. bitmap_beside b.bytes.items b.numbers };

    fn numbers(&self) -> Numbers {
        self.numbers
    }

    fn read(&self, col: u32, row: u32) -> Result<bool, FilmFault> {
        if !self.numbers.has_pixel(col, row) {
            return Err(FilmFault::Off);
        }
        let start = first_bit(self.numbers, row);
        Ok(bit_at(&self.bytes, start + col as usize))
    }

    fn write_span(&mut self, span: Span, dark: bool) -> Result<(), FilmFault> {
        if !self.numbers.has_span(span) {
            return Err(FilmFault::Off);
        }
        let start = first_bit(self.numbers, span.row);
        fill_bits(
            &mut self.bytes,
            start + span.first as usize,
            start + span.end as usize,
            dark,
        );
        Ok(())
    }

    fn pack_row(&self, row: u32, out: &mut [u8]) -> Result<(), FilmFault> {
        let bytes = self.numbers.packed_length(row, out.len())?;
        let start = row as usize * bytes;
        out[..bytes].copy_from_slice(&self.bytes[start..start + bytes]);
        Ok(())
    }
}

// The place of a row's first bit among all bits.
fn first_bit(n: Numbers, row: u32) -> usize
    ensures is { result ≡ row * (8 * bytes_for n.width) }
    ensures small { result ≤ row * 30000 }
{
    row as usize * (8 * n.row_length())
}
