// A test card on a bitmap film, written as a PBM sheet.
ghost use Rattle.std.specs.Prelude.{◌≡◌, true, pos, IfOk};
ghost use Rattle.film.specs.Frame.{framed, in_limits};

use crate::sheets::{Measures, put_sheet};
use crate::stop::{Stop, stop_with};
use bitmap::bitmap::Bitmap;
use film::bytes::row_length;
use film::film::Film;
use film::grid::Grid;
use film::refused::Refused;
use film::window::Window;
use piles::cutout::CutOut;
use piles::negative::Negative;
use sheet::size::Size;
use testcard::card::draw_test_card;
use wording::refusals::Reason;

// Draws the card over the film, and once more, in negative, on the lower right part of it.
fn draw_card(mut film: Bitmap) -> Bitmap {
    draw_test_card(&mut film);
    let n = film.numbers();
    let (width, height) = (n.width / 4, n.height / 4);
    let corner = Window {
        x: n.width - width,
        y: n.height - height,
        width,
        height,
    };
    match CutOut::new(film, corner) {
        Ok(cut) => {
            let mut negative = Negative { below: cut };
            draw_test_card(&mut negative);
            negative.into_below().into_below()
        }
        Err(Refused { given, .. }) => given,
    }
}

// A clear film of this size, with its lower left corner at the origin.
fn new_film(rt: &HostRuntime, size: Size, pitch: u32) -> Result<Bitmap, Stop>
    ensures { IfOk result (λ _. in_limits (framed size.width size.height pitch (pos 0) (pos 0)) ≡ true) }
{
    let Size { width, height } = size;
    // a film past the limits is refused by its numbers, whatever its memory
    let bytes = row_length(width)
        .saturating_mul(height as usize)
        .min(60_000 * 60_000 / 8);
    let memory = vec![in rt.alloc(); 0u8; bytes]?;
    let grid = Grid {
        width,
        height,
        pitch,
        ox: 0,
        oy: 0,
    };
    Bitmap::new(memory, grid).or_else(|refused| {
        stop_with(rt, format_args!("film {}", Reason(refused.fault.into())))
    })
}

/// Draws a test card and writes it to `path`.
pub fn expose_card(rt: &HostRuntime, path: &str, size: Size, pitch: u32) -> Result<(), Stop>
    ensures { IfOk result (λ _. in_limits (framed size.width size.height pitch (pos 0) (pos 0)) ≡ true) }
{
    let film = draw_card(new_film(rt, size, pitch)?);
    let bytes = put_sheet(rt, &film, path)?;
    println!(rt;
        "{path}: test card of {}, {bytes} bytes",
        Measures(film.numbers())
    )?;
    Ok(())
}
