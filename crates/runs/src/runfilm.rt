// A film whose rows are runs.
ghost use Rattle.std.specs.Prelude.{◌≡◌, ℕ, ◌*◌, ◌<◌, ◌≤◌, true, vec_len};
ghost use Rattle.runs.specs.Slots.{row_slots, row_sound, run_meaning, run_beside};

use crate::finding::holds;
use crate::memory::RunMemory;
use crate::pack::pack_runs;
use crate::rows::write_row;
use film::fault::FilmFault;
use film::film::Film;
use film::numbers::Numbers;
use film::span::Span;

#[derive(Drop)]
pub struct RunFilm {
    pub(crate) memory: RunMemory,
    pub(crate) numbers: Numbers,
    ghost counted: { numbers.height ≤ vec_len memory.counts },
    ghost roomy: { numbers.height * row_slots numbers.width ≤ vec_len memory.slots },
    ghost sound: { (r : ℕ) → r < numbers.height → row_sound memory.counts.items memory.slots.items numbers.width r ≡ true },
}

impl Film for RunFilm {
    ghost meaning = { λ f. run_meaning f.memory.counts.items f.memory.slots.items f.numbers };

    ghost beside = { λ f. run_beside f.memory.counts.items f.memory.slots.items f.numbers };

    fn numbers(&self) -> Numbers {
        self.numbers
    }

    fn read(&self, col: u32, row: u32) -> Result<bool, FilmFault> {
        if col >= self.numbers.width || row >= self.numbers.height {
            return Err(FilmFault::Off);
        }
        Ok(holds(self.runs(row), col))
    }

    fn write_span(&mut self, span: Span, dark: bool) -> Result<(), FilmFault> {
        if !self.numbers.has_span(span) {
            return Err(FilmFault::Off);
        }
        write_row(
            &mut self.memory.counts,
            &mut self.memory.slots,
            self.numbers.width,
            span,
            dark,
        );
        Ok(())
    }

    fn pack_row(&self, row: u32, out: &mut [u8]) -> Result<(), FilmFault> {
        let bytes = self.numbers.packed_length(row, out.len())?;
        pack_runs(self.runs(row), &mut out[..bytes]);
        Ok(())
    }
}
