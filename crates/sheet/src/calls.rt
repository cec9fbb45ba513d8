// The calls on a sheet: open, one row after another, close.
ghost use Rattle.std.specs.Prelude.{◌≡◌, ◌+◌, ◌*◌, ◌<◌, ◌≤◌, length};
ghost use Rattle.film.specs.Packed.{bytes_for, row_bytes};
ghost use Rattle.sheet.specs.Sheet.{put, open_answer, opened, row_place, row_answer, row_output, row_sheet};
ghost use Rattle.sheet.specs.Faults.{told};
ghost use Rattle.sheet.specs.Made.{sheet_of, told_sheet, CloseAnswer};

use crate::closed::{ClosedSheet, Unclosed};
use crate::fault::SheetFault;
use crate::header::put_header;
use crate::open::OpenSheet;
use crate::size::Size;
use film::bytes::row_length;
use film::film::Film;

impl OpenSheet {
    // Opens a sheet of a size, and writes its header to the front of the output.
    pub fn open(size: Size, out: &mut [u8]) -> Result<OpenSheet, SheetFault>
        ensures answer { told_sheet result ≡ open_answer size.width size.height (length out.old) }
        ensures output { out.new ≡ opened size.width size.height out.old }
    {
        if !size.is_allowed() {
            return Err(SheetFault::Limits);
        }
        if out.len() < size.whole_length() {
            return Err(SheetFault::Short);
        }
        put_header(out, size);
        Ok(OpenSheet { size, written: 0 })
    }

    // The place of the next row in the output.
    fn row_place(&self) -> usize
        ensures is { result ≡ row_place (sheet_of self.now) }
    {
        self.size.header_length() + self.written as usize * row_length(self.size.width)
    }

    // Writes a row of a film as the next row of the sheet.
    pub fn write_row<F: Film>(
        &mut self,
        film: &F,
        row: u32,
        out: &mut [u8],
    ) -> Result<(), SheetFault>
        ensures answer { told result ≡ row_answer (sheet_of self.old) (F.meaning film.now) row (length out.old) }
        ensures output { out.new ≡ row_output (sheet_of self.old) (F.meaning film.now) row out.old }
        ensures sheet { sheet_of self.new ≡ row_sheet (sheet_of self.old) (F.meaning film.now) row (length out.old) }
    {
        let n = film.numbers();
        if row >= n.height {
            return Err(SheetFault::Off);
        }
        if out.len() < self.size.whole_length() {
            return Err(SheetFault::Short);
        }
        if n.width != self.size.width || self.written >= self.size.height {
            return Err(SheetFault::Order);
        }
        let place = self.row_place();
        put_row(film, row, out, place);
        self.written += 1;
        Ok(())
    }

    // Closes a sheet whose rows are all written; any other is refused and handed back.
    pub fn close(self) -> Result<ClosedSheet, Unclosed>
        ensures { CloseAnswer (sheet_of self) result }
    {
        if self.written < self.size.height {
            return Err(Unclosed {
                sheet: self,
                fault: SheetFault::Order,
            });
        }
        let length = self.size.whole_length();
        let OpenSheet {
            size: _,
            written: _,
        } = self;
        Ok(ClosedSheet { length })
    }
}

// Puts the bytes of a row of a film into an output from a place on.
fn put_row<F: Film>(film: &F, row: u32, out: &mut [u8], place: usize)
    requires on { row < (F.meaning film.now).frame.height }
    requires room { place + bytes_for (F.meaning film.now).frame.width ≤ length out.old }
    ensures { out.new ≡ put place (row_bytes (F.meaning film.now) row) out.old }
{
    // The row is on the film and there is room, so that this is not refused.
    let _ = film.pack_row(row, &mut out[place..]);
}
