use bitmap::bitmap::Bitmap;
use film::fault::FilmFault;
use film::film::Film;
use film::grid::Grid;
use film::numbers::Numbers;
use film::span::Span;
use film::window::Window;
use piles::cutout::CutOut;
use piles::mirror::Mirror;
use piles::negative::Negative;
use runs::memory::RunMemory;
use runs::run::Run;
use runs::runfilm::RunFilm;
use std::alloc::Global;
use std::process::Abort;
use std::test::Fail;

// A row as packed, or 0 where it is refused, as the rows of a picture below the last are.
fn packed<F: Film>(film: &F, row: u32) -> u8 {
    let mut out = [0u8];
    match film.pack_row(row, &mut out) {
        Ok(()) => out[0],
        Err(_) => 0,
    }
}

// A row as its pixels are read, off the film clear.
fn read<F: Film>(film: &F, row: u32) -> u8 {
    let mut byte = 0u8;
    for col in 0..8 {
        byte = byte << 1 | u8::from(film.read(col, row) == Ok(true));
    }
    byte
}

// Every row is packed and read as in the picture.
fn shows<F: Film>(rt: &impl Abort, film: &F, picture: [u8; 4]) {
    for (row, byte) in (0..).zip(picture) {
        assert_eq!(rt; packed(film, row), byte);
        assert_eq!(rt; read(film, row), byte);
    }
}

// What a film of 8 by 4 pixels is made with.
const GRID: Grid = Grid {
    width: 8,
    height: 4,
    pitch: 20,
    ox: 100,
    oy: 100,
};

// Each test crate makes its own few films and spans.
fn span(row: u32, first: u32, end: u32) -> Span {
    Span { row, first, end }
}

// Spans are written, joined and cut; those off the film are refused.
fn draws<F: Film>(rt: &impl Abort, film: &mut F) {
    shows(rt, film, [0, 0, 0, 0]);
    let spans = [
        (span(0, 1, 3), true, [0b0110_0000, 0, 0, 0]),
        (span(0, 5, 7), true, [0b0110_0110, 0, 0, 0]),
        (span(0, 3, 5), true, [0b0111_1110, 0, 0, 0]),
        (span(0, 2, 6), false, [0b0100_0010, 0, 0, 0]),
        (span(3, 0, 8), true, [0b0100_0010, 0, 0, 0xFF]),
        (span(3, 4, 4), false, [0b0100_0010, 0, 0, 0xFF]),
        (span(3, 0, 1), false, [0b0100_0010, 0, 0, 0x7F]),
    ];
    for (span, dark, picture) in spans {
        assert_eq!(rt; film.write_span(span, dark), Ok(()));
        shows(rt, film, picture);
    }
    for off in [span(4, 0, 1), span(0, 2, 1), span(0, 0, 9), span(0, 9, 9)] {
        assert_eq!(rt; film.write_span(off, true), Err(FilmFault::Off));
    }
    shows(rt, film, [0b0100_0010, 0, 0, 0x7F]);
}

fn bitmap(heap: Global) -> Result<Bitmap, Fail> {
    Bitmap::new(vec![in heap; 0xFFu8; 6]?, GRID).map_err(|_| Fail::new("refused"))
}

fn run_film(heap: Global) -> Result<RunFilm, Fail> {
    let memory = RunMemory {
        counts: vec![in heap; 7u32; 5]?,
        slots: vec![in heap; Run { first: 0, end: 0 }; 16]?,
    };
    RunFilm::new(memory, GRID).map_err(|_| Fail::new("refused"))
}

fn window(x: u32, y: u32, width: u32, height: u32) -> Window {
    Window {
        x,
        y,
        width,
        height,
    }
}

fn cut<F: Film + Drop>(below: F, window: Window) -> Result<CutOut<F>, Fail> {
    CutOut::new(below, window).map_err(|_| Fail::new("refused"))
}

// A negative of a mirror of a window of a mirror, and the film below it.
fn turned<F: Film + Drop>(rt: &impl Abort, film: F) -> Result<F, Fail> {
    let below = cut(Mirror { below: film }, window(1, 1, 6, 2))?;
    let mut pile = Negative {
        below: Mirror { below },
    };
    shows(rt, &pile, [0xFC, 0xFC, 0, 0]);
    assert_eq!(rt; pile.write_span(span(0, 0, 6), false), Ok(()));
    assert_eq!(rt; pile.write_span(span(0, 1, 3), true), Ok(()));
    assert_eq!(rt; pile.write_span(span(1, 5, 6), false), Ok(()));
    assert_eq!(rt; pile.write_span(span(2, 0, 1), false), Err(FilmFault::Off));
    assert_eq!(rt; pile.write_span(span(0, 0, 7), false), Err(FilmFault::Off));
    shows(rt, &pile, [0b0110_0000, 0b1111_1000, 0, 0]);
    Ok(pile.into_below().into_below().into_below().into_below())
}

// A window of a negative of a window of a mirror, and the film below it.
fn windows<F: Film + Drop>(rt: &impl Abort, film: F) -> Result<F, Fail> {
    let below = cut(Mirror { below: film }, window(2, 0, 5, 4))?;
    let mut pile = cut(Negative { below }, window(1, 2, 3, 2))?;
    let n = pile.numbers();
    assert_eq!(rt; (n.width, n.height, n.ox, n.oy), (3, 2, 160, 100));
    assert_eq!(rt; pile.write_span(span(1, 0, 2), false), Ok(()));
    shows(rt, &pile, [0b1110_0000, 0b0010_0000, 0, 0]);
    Ok(pile.into_below().into_below().into_below().into_below())
}

// Piles over a clear film, and what it then holds.
fn piles<F: Film + Drop>(rt: &impl Abort, film: F) -> Result<F, Fail> {
    let film = turned(rt, film)?;
    shows(rt, &film, [0, 0b0100_1110, 0b0000_0010, 0]);
    let film = windows(rt, film)?;
    shows(rt, &film, [0, 0b0100_1110, 0b0000_0010, 0b0001_1000]);
    Ok(film)
}

#[test]
fn films_over_films(rt: HostRuntime) -> Result<(), Fail> {
    let film = piles(&rt, bitmap(rt.alloc())?)?;
    assert_eq!(rt;
        film.into_memory().as_slice(),
        [0, 0b0100_1110, 0b0000_0010, 0b0001_1000, 0xFF, 0xFF].as_slice()
    );
    let film = piles(&rt, run_film(rt.alloc())?)?;
    let off = [
        window(0, 0, 0, 4),
        window(0, 0, 8, 0),
        window(1, 0, 8, 4),
        window(0, 4, 8, 1),
    ];
    for window in off {
        assert!(rt; !film.numbers().has(window));
    }
    assert_eq!(rt;
        film.into_memory().counts.as_slice(),
        [0, 2, 1, 1, 7].as_slice()
    );
    Ok(())
}

#[test]
fn limits(rt: HostRuntime) {
    let cases = [
        (1, 1, 2, 0, 0, true),
        (0, 1, 2, 0, 0, false),
        (1, 1, 66, 0, 0, false),
        (1, 1, 3, 0, 0, false),
        (30000, 30000, 2, -30001, 30001, true),
        (30000, 30000, 2, -30001, 30002, false),
        (30001, 1, 2, 0, 0, false),
        (1, 1, 2, -30002, 0, false),
        (1, 1, 2, 0, 89999, true),
        (1, 1, 2, 0, 90000, false),
    ];
    for (width, height, pitch, ox, oy, good) in cases {
        let grid = Grid {
            width,
            height,
            pitch,
            ox,
            oy,
        };
        assert_eq!(rt; Numbers::new(grid).is_ok(), good);
    }
}

#[test]
fn bare_films(rt: HostRuntime) -> Result<(), Fail> {
    let mut film = bitmap(rt.alloc())?;
    draws(&rt, &mut film);
    assert_eq!(rt;
        film.into_memory().as_slice(),
        [0b0100_0010, 0, 0, 0x7F, 0xFF, 0xFF].as_slice()
    );
    let mut film = run_film(rt.alloc())?;
    draws(&rt, &mut film);
    assert_eq!(rt;
        film.into_memory().counts.as_slice(),
        [2, 0, 0, 1, 7].as_slice()
    );
    Ok(())
}
