use bitmap::bitmap::Bitmap;
use film::film::Film;
use film::grid::Grid;
use film::span::Span;
use piles::mirror::Mirror;
use piles::negative::Negative;
use runs::memory::RunMemory;
use runs::run::Run;
use runs::runfilm::RunFilm;
use sheet::closed::Unclosed;
use sheet::fault::SheetFault;
use sheet::header::sheet_length;
use sheet::open::OpenSheet;
use sheet::size::Size;
use sheet::whole::write_film;
use std::alloc::Global;
use std::process::Abort;
use std::test::Fail;
use testcard::card::draw_test_card;

// Each test crate makes its own few films and spans.
fn grid(width: u32, height: u32) -> Grid {
    Grid {
        width,
        height,
        pitch: 2,
        ox: 0,
        oy: 0,
    }
}

fn bitmap(heap: Global, width: u32, height: u32) -> Result<Bitmap, Fail> {
    Bitmap::new(vec![in heap; 0u8; 32]?, grid(width, height)).map_err(|_| Fail::new("refused"))
}

fn run_film(heap: Global, width: u32, height: u32) -> Result<RunFilm, Fail> {
    let memory = RunMemory {
        counts: vec![in heap; 0u32; 20]?,
        slots: vec![in heap; Run { first: 0, end: 0 }; 100]?,
    };
    RunFilm::new(memory, grid(width, height)).map_err(|_| Fail::new("refused"))
}

fn span(row: u32, first: u32, end: u32) -> Span {
    Span { row, first, end }
}

// A film's sheet is these bytes, in an output that is long enough and in no shorter one.
fn is_written<F: Film>(rt: &impl Abort, film: &F, sheet: &[u8]) -> Result<(), Fail> {
    let out: &mut [u8] = &mut [0xAA; 64];
    let length = sheet.len();
    if length < 1 || length >= 64 {
        return Err(Fail::new("not a sheet"));
    }
    assert_eq!(rt;
        write_film(film, &mut out[0..length - 1]),
        Err(SheetFault::Short)
    );
    assert!(rt; out[0] == 0xAA);
    assert_eq!(rt; write_film(film, out), Ok(length));
    assert_eq!(rt; &out[0..length], sheet);
    assert!(rt; out[length] == 0xAA);
    Ok(())
}

// A square of four pixels in the middle of ten by ten, and its negative.
fn square<F: Film + Drop>(rt: &impl Abort, mut film: F) -> Result<(), Fail> {
    assert_eq!(rt; film.write_span(span(4, 4, 6), true), Ok(()));
    assert_eq!(rt; film.write_span(span(5, 4, 6), true), Ok(()));
    is_written(
        rt,
        &film,
        b"P4\n10 10\n\0\0\0\0\0\0\0\0\x0C\0\x0C\0\0\0\0\0\0\0\0\0",
    )?;
    is_written(
        rt,
        &Negative { below: film },
        b"P4\n10 10\n\xFF\xC0\xFF\xC0\xFF\xC0\xFF\xC0\xF3\xC0\xF3\xC0\xFF\xC0\xFF\xC0\xFF\xC0\xFF\xC0",
    )
}

#[test]
fn square_on_every_film(rt: HostRuntime) -> Result<(), Fail> {
    square(&rt, bitmap(rt.alloc(), 10, 10)?)?;
    square(&rt, run_film(rt.alloc(), 10, 10)?)?;
    square(
        &rt,
        Mirror {
            below: bitmap(rt.alloc(), 10, 10)?,
        },
    )
}

// Makes the first pixel of the top row dark.
fn first<F: Film>(rt: &impl Abort, film: &mut F) {
    assert_eq!(rt; film.write_span(span(0, 0, 1), true), Ok(()));
}

// The first pixel of a row, and on a mirror the last.
#[test]
fn widths(rt: HostRuntime) -> Result<(), Fail> {
    let cases: [(u32, &[u8], &[u8]); 4] = [
        (1, b"P4\n1 1\n\x80", b"P4\n1 1\n\x80"),
        (7, b"P4\n7 1\n\x80", b"P4\n7 1\n\x02"),
        (8, b"P4\n8 1\n\x80", b"P4\n8 1\n\x01"),
        (9, b"P4\n9 1\n\x80\0", b"P4\n9 1\n\0\x80"),
    ];
    for (width, sheet, turned) in cases {
        let mut film = bitmap(rt.alloc(), width, 1)?;
        first(&rt, &mut film);
        is_written(&rt, &film, sheet)?;
        let mut below = run_film(rt.alloc(), width, 1)?;
        first(&rt, &mut below);
        is_written(&rt, &Mirror { below }, turned)?;
    }
    Ok(())
}

#[test]
fn lengths(rt: HostRuntime) {
    let cases = [
        (0, 1, None),
        (1, 0, None),
        (30001, 1, None),
        (1, 30001, None),
        (9, 99, Some(206)),
        (30000, 30000, Some(112_500_015)),
    ];
    for (width, height, length) in cases {
        assert_eq!(rt; sheet_length(Size { width, height }).ok(), length);
    }
}

// Openings that are refused: numbers come before the output.
#[test]
fn refused_openings(rt: HostRuntime) {
    let mut out = [7u8; 1];
    for (width, height) in [(0, 1), (1, 30001)] {
        match OpenSheet::open(Size { width, height }, &mut out) {
            Ok(_) => unreachable(),
            Err(fault) => assert_eq!(rt; fault, SheetFault::Limits),
        }
    }
    assert_eq!(rt; out[0], 7);
}

// One row: off the film, a short output, another width, then written, and none after it.
fn one_row<F: Film, G: Film>(
    rt: &impl Abort,
    film: &F,
    wide: &G,
    out: &mut [u8],
) -> Result<usize, Fail> {
    let size = Size {
        width: film.numbers().width,
        height: 1,
    };
    let Ok(new) = OpenSheet::open(size, out) else {
        return Err(Fail::new("refused"));
    };
    let Err(unclosed) = new.close() else {
        return Err(Fail::new("closed"));
    };
    let Unclosed { mut sheet, fault } = unclosed;
    let off = sheet.write_row(wide, 1, &mut out[0..0]);
    let short = sheet.write_row(wide, 0, &mut out[0..0]);
    let other = sheet.write_row(wide, 0, out);
    let written = sheet.write_row(film, 0, out);
    let after = sheet.write_row(film, 0, out);
    let length = match sheet.close() {
        Ok(closed) => closed.length,
        Err(_) => unreachable(),
    };
    assert_eq!(rt; fault, SheetFault::Order);
    assert_eq!(rt; off, Err(SheetFault::Off));
    assert_eq!(rt; short, Err(SheetFault::Short));
    assert_eq!(rt; other, Err(SheetFault::Order));
    assert_eq!(rt; written, Ok(()));
    assert_eq!(rt; after, Err(SheetFault::Order));
    Ok(length)
}

#[test]
fn rows_in_turn(rt: HostRuntime) -> Result<(), Fail> {
    let mut film = run_film(rt.alloc(), 8, 1)?;
    first(&rt, &mut film);
    let mut out = [0xAAu8; 9];
    let length = one_row(&rt, &film, &bitmap(rt.alloc(), 9, 1)?, &mut out)?;
    assert_eq!(rt; length, 8);
    assert_eq!(rt; &out[..], b"P4\n8 1\n\x80\xAA".as_slice());
    Ok(())
}

#[test]
fn test_cards(rt: HostRuntime) -> Result<(), Fail> {
    let mut film = bitmap(rt.alloc(), 1, 1)?;
    draw_test_card(&mut film);
    is_written(&rt, &film, b"P4\n1 1\n\x80")?;
    let mut film = run_film(rt.alloc(), 16, 12)?;
    draw_test_card(&mut film);
    is_written(
        &rt,
        &film,
        b"P4\n16 12\n\xFF\xFF\xFF\x01\xFF\x01\xFF\x81\xFF\x81\xFF\x81\xFF\xF1\xFF\x81\x80\xFF\x80\xFF\x80\xFF\xFF\xFF",
    )
}
