// Run films, made over memory and taken apart.
ghost use Rattle.std.specs.Prelude.{◌≡◌, ℕ, ◌*◌, ◌<◌, true, ◌&&◌, Some, None, vec_len, MatchResult, nat_le};
ghost use Rattle.film.specs.Faults.{film_told};
ghost use Rattle.film.specs.Made.{frame_of, grid_frame};
ghost use Rattle.runs.specs.Slots.{row_slots, row_sound};
ghost use Rattle.runs.specs.Made.{run_refusal, NewRunFilm};

use crate::memory::RunMemory;
use crate::rows::row_slots;
use crate::runfilm::RunFilm;
use film::fault::FilmFault;
use film::grid::Grid;
use film::memory::fill_front;
use film::numbers::Numbers;
use film::refused::Refused;

// The slots that a film of these numbers takes.
pub fn own_slots(n: Numbers) -> usize
    ensures { result ≡ n.height * row_slots n.width }
{
    n.height as usize * row_slots(n.width)
}

impl RunMemory {
    // Whether a film of these numbers has room in it.
    fn has_room(&self, n: Numbers) -> bool
        ensures { result ≡ (nat_le n.height (vec_len self.now.counts) && nat_le (n.height * row_slots n.width) (vec_len self.now.slots)) }
    {
        n.height as usize <= self.counts.len() && own_slots(n) <= self.slots.len()
    }
}

impl RunFilm {
    // A clear film of these numbers.
    pub fn new(memory: RunMemory, grid: Grid) -> Result<RunFilm, Refused<RunMemory>>
        ensures { MatchResult result
            (λ f. (run_refusal (grid_frame grid) (vec_len memory.counts) (vec_len memory.slots) ≡ None) × (f.memory.slots ≡ memory.slots)
            × NewRunFilm (grid_frame grid) memory.counts.items f.numbers f.memory.counts.items f.memory.slots.items)
            (λ e. (run_refusal (grid_frame grid) (vec_len memory.counts) (vec_len memory.slots) ≡ Some (film_told e.fault)) × (e.given ≡ memory)) }
    {
        // The memory goes either way, so that a `?` cannot hand the fault on.
        match Numbers::new(grid) {
            Ok(numbers) => over(memory, numbers),
            Err(fault) => Err(Refused {
                given: memory,
                fault,
            }),
        }
    }

    // The memory, in which every row of the film is in order.
    pub fn into_memory(self) -> RunMemory
        ensures memory { result ≡ self.memory }
        ensures sound { (y : ℕ) → y < self.numbers.height → row_sound result.counts.items result.slots.items self.numbers.width y ≡ true }
    {
        self.memory
    }
}

// A clear film of numbers within their limits.
fn over(mut memory: RunMemory, numbers: Numbers) -> Result<RunFilm, Refused<RunMemory>>
    ensures { MatchResult result
        (λ f. (run_refusal (frame_of numbers) (vec_len memory.counts) (vec_len memory.slots) ≡ None) × (f.memory.slots ≡ memory.slots)
        × NewRunFilm (frame_of numbers) memory.counts.items f.numbers f.memory.counts.items f.memory.slots.items)
        (λ e. (run_refusal (frame_of numbers) (vec_len memory.counts) (vec_len memory.slots) ≡ Some (film_told e.fault)) × (e.given ≡ memory)) }
{
    if !memory.has_room(numbers) {
        return Err(Refused {
            given: memory,
            fault: FilmFault::Memory,
        });
    }
    fill_front(&mut memory.counts, numbers.height as usize, 0);
    Ok(RunFilm { memory, numbers })
}
