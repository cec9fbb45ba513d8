// Bitmaps, made over memory and taken apart.
ghost use Rattle.std.specs.Prelude.{◌≡◌, ℕ, true, false, Some, None, vec_len, MatchResult};
ghost use Rattle.film.specs.Faults.{film_told};
ghost use Rattle.film.specs.Made.{frame_of, grid_frame};
ghost use Rattle.bitmap.specs.Pixels.{own_bytes, padding, pixel_of};
ghost use Rattle.bitmap.specs.Made.{bitmap_refusal, NewBitmap};

use crate::bitmap::Bitmap;
use film::fault::FilmFault;
use film::grid::Grid;
use film::memory::fill_front;
use film::numbers::Numbers;
use film::refused::Refused;

// The bytes that a film of these numbers takes.
pub fn own_bytes(n: Numbers) -> usize
    ensures { result ≡ own_bytes n }
{
    n.height as usize * n.row_length()
}

impl Bitmap {
    // A clear film of these numbers.
    pub fn new(memory: Vec<u8>, grid: Grid) -> Result<Bitmap, Refused<Vec<u8>>>
        ensures { MatchResult result
            (λ b. (bitmap_refusal (grid_frame grid) (vec_len memory) ≡ None) × NewBitmap (grid_frame grid) memory.items b.numbers b.bytes.items)
            (λ e. (bitmap_refusal (grid_frame grid) (vec_len memory) ≡ Some (film_told e.fault)) × (e.given ≡ memory)) }
    {
        // The memory goes either way, so that a `?` cannot hand the fault on.
        match Numbers::new(grid) {
            Ok(numbers) => over(memory, numbers),
            Err(fault) => Err(Refused {
                given: memory,
                fault,
            }),
        }
    }

    // The memory, whose own part is the film's rows with their padding bits 0.
    pub fn into_memory(self) -> Vec<u8>
        ensures memory { result ≡ self.bytes }
        ensures padding { (c y : ℕ) → padding self.numbers c y ≡ true → pixel_of result.items self.numbers.width c y ≡ false }
    {
        self.bytes
    }
}

// A clear film of numbers within their limits.
fn over(mut memory: Vec<u8>, numbers: Numbers) -> Result<Bitmap, Refused<Vec<u8>>>
    ensures { MatchResult result
        (λ b. (bitmap_refusal (frame_of numbers) (vec_len memory) ≡ None) × NewBitmap (frame_of numbers) memory.items b.numbers b.bytes.items)
        (λ e. (bitmap_refusal (frame_of numbers) (vec_len memory) ≡ Some (film_told e.fault)) × (e.given ≡ memory)) }
{
    let own = own_bytes(numbers);
    if memory.len() < own {
        return Err(Refused {
            given: memory,
            fault: FilmFault::Memory,
        });
    }
    fill_front(&mut memory, own, 0);
    Ok(Bitmap {
        bytes: memory,
        numbers,
    })
}
