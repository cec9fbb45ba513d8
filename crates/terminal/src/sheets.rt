// Writing a film as a PBM sheet, and telling its size.
ghost use Rattle.std.specs.Prelude.{◌≡◌, ℕ, length, IfNone, IfOk, IfSome};
ghost use Rattle.sheet.specs.Whole.{sheet_bytes};
ghost use Rattle.terminal.specs.Sizes.{Writes, back, front};

use crate::files::write_file;
use crate::stop::Stop;
use film::film::Film;
use film::numbers::Numbers;
use sheet::header::film_length;
use sheet::size::Size;
use sheet::whole::write_film;
use std::alloc::{AllocError, Global};
use std::fmt;

// The bytes of the film's sheet.
fn sheet_of<F: Film>(heap: Global, film: &F) -> Result<Vec<u8>, AllocError>
    ensures { IfOk result (λ v. v.items ≡ sheet_bytes (F.meaning film.now)) }
{
    let length = film_length(film.numbers());
    let mut out = vec![in heap; 0u8; length]?;
    // the sheet has room
    write_film(film, out.as_mut_slice()).unwrap();
    Ok(out)
}

/// Writes the film as a sheet, and answers how many bytes that are.
pub fn put_sheet<F: Film>(rt: &HostRuntime, film: &F, path: &str) -> Result<usize, Stop>
    ensures { IfOk result (λ n. n ≡ length (sheet_bytes (F.meaning film.now))) }
{
    let bytes = sheet_of(rt.alloc(), film)?;
    write_file(rt, path, bytes.as_slice())?;
    Ok(bytes.len())
}

/// The width and height that are written `W,H`.
pub fn size_of(text: &str) -> Option<Size>
    ensures size { IfSome result (λ s. Writes (front text.now) s.width × Writes (back text.now) s.height) }
    ensures none { IfNone result ((w h : ℕ) → Writes (front text.now) w → Writes (back text.now) h → ⊥) }
{
    let (width, height) = text.split_once(',')?;
    Some(Size {
        width: width.parse().ok()?,
        height: height.parse().ok()?,
    })
}

/// A film's size in pixels and in millimetres.
#[derive(Clone, Copy)]
pub struct Measures(pub Numbers);

// Ticks of 5 µm in thousandths of a millimetre.
fn thousandths(pixels: u32, pitch: u32) -> u64 {
    u64::from(pixels)
        .saturating_mul(u64::from(pitch))
        .saturating_mul(5)
}

impl fmt::Display for Measures {
    fn fmt<W: fmt::Write>(&self, f: &mut fmt::Formatter<W>) -> fmt::Result {
        let Numbers {
            width,
            height,
            pitch,
            ..
        } = self.0;
        let (x, y) = (thousandths(width, pitch), thousandths(height, pitch));
        write!(
            f,
            "{width} by {height} pixels, {}.{:03} by {}.{:03} mm",
            x / 1000,
            x % 1000,
            y / 1000,
            y % 1000
        )
    }
}
