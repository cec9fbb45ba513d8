// Tests of painting: shapes on films, bare and piled, within windows. The crate has nothing but tests.

#![tactic(auto)]

#[cfg(test)]
mod tests {
    use bitmap::bitmap::Bitmap;
    use film::fault::FilmFault;
    use film::film::Film;
    use film::grid::Grid;
    use film::window::Window;
    use paint::painting::paint;
    use piles::mirror::Mirror;
    use piles::negative::Negative;
    use plane::points::{Half, Place};
    use shapes::flashes::{Circle, Rectangle};
    use std::process::Abort;
    use std::test::Fail;

    const WHOLE: Window = Window {
        x: 0,
        y: 0,
        width: 10,
        height: 10,
    };

    // A clear film of ten by ten pixels, 20 ticks each, with its corner at (100, 100).
    fn ten(rt: &HostRuntime) -> Result<Bitmap, Fail> {
        let memory = vec![in rt.alloc(); 0u8; 20]?;
        let grid = Grid {
            width: 10,
            height: 10,
            pitch: 20,
            ox: 100,
            oy: 100,
        };
        Bitmap::new(memory, grid).map_err(|_| Fail::new("no film"))
    }

    // The two bytes of a row.
    fn row<F: Film>(film: &F, row: u32) -> Result<[u8; 2], Fail> {
        let mut out = [0u8; 2];
        film.pack_row(row, &mut out)?;
        Ok(out)
    }

    // Every row is as the ten of the table.
    fn rows_are<F: Film>(rt: &impl Abort, film: &F, rows: [[u8; 2]; 10]) -> Result<(), Fail> {
        for (i, bytes) in (0..10).zip(rows) {
            assert_eq!(rt; row(film, i)?, bytes, "a row of the film");
        }
        Ok(())
    }

    fn dot() -> Circle {
        Circle {
            place: Place { x: 200, y: 200 },
            half: Half { ticks: 20 },
        }
    }

    const CLEAR: [u8; 2] = [0, 0];

    const DOT: [u8; 2] = [0x0c, 0];

    #[test]
    fn a_circle_darkens_the_centres_that_it_covers(rt: HostRuntime) -> Result<(), Fail> {
        let mut film = ten(&rt)?;
        paint(&mut film, WHOLE, &dot(), true)?;
        rows_are(
            &rt,
            &film,
            [
                CLEAR, CLEAR, CLEAR, CLEAR, DOT, DOT, CLEAR, CLEAR, CLEAR, CLEAR,
            ],
        )?;
        let negative = Negative { below: film };
        assert_eq!(rt; row(&negative, 4)?, [0xf3, 0xc0]);
        assert_eq!(rt; row(&negative, 0)?, [0xff, 0xc0]);
        Ok(())
    }

    #[test]
    fn a_window_bounds_what_is_painted(rt: HostRuntime) -> Result<(), Fail> {
        let mut film = ten(&rt)?;
        let upper_left = Window {
            x: 0,
            y: 0,
            width: 5,
            height: 5,
        };
        paint(&mut film, upper_left, &dot(), true)?;
        rows_are(
            &rt,
            &film,
            [
                CLEAR,
                CLEAR,
                CLEAR,
                CLEAR,
                [0x08, 0],
                CLEAR,
                CLEAR,
                CLEAR,
                CLEAR,
                CLEAR,
            ],
        )
    }

    #[test]
    fn clear_is_painted_over_dark(rt: HostRuntime) -> Result<(), Fail> {
        let mut film = Mirror { below: ten(&rt)? };
        let board = Rectangle {
            place: Place { x: 200, y: 200 },
            a: Half { ticks: 5000 },
            b: Half { ticks: 50 },
        };
        paint(&mut film, WHOLE, &board, true)?;
        paint(&mut film, WHOLE, &dot(), false)?;
        let full = [0xff, 0xc0];
        let holed = [0xf3, 0xc0];
        rows_are(
            &rt,
            &film,
            [
                CLEAR, CLEAR, full, full, holed, holed, full, full, CLEAR, CLEAR,
            ],
        )
    }

    #[test]
    fn bad_windows_are_refused_and_shapes_far_off_paint_nothing(
        rt: HostRuntime,
    ) -> Result<(), Fail> {
        let mut film = ten(&rt)?;
        let bad = [
            Window {
                x: 0,
                y: 0,
                width: 0,
                height: 1,
            },
            Window {
                x: 0,
                y: 0,
                width: 1,
                height: 0,
            },
            Window {
                x: 10,
                y: 0,
                width: 1,
                height: 1,
            },
            Window {
                x: 0,
                y: 5,
                width: 1,
                height: 6,
            },
            Window {
                x: u32::MAX,
                y: 0,
                width: u32::MAX,
                height: 1,
            },
        ];
        for window in bad {
            assert_eq!(rt;
                paint(&mut film, window, &dot(), true),
                Err(FilmFault::Window)
            );
        }
        let places = [
            Place {
                x: 345_000,
                y: 345_000,
            },
            Place {
                x: -345_000,
                y: 200,
            },
            Place {
                x: 200,
                y: -345_000,
            },
        ];
        for place in places {
            let far = Circle {
                place,
                half: Half { ticks: 5000 },
            };
            paint(&mut film, WHOLE, &far, true)?;
        }
        rows_are(&rt, &film, [CLEAR; 10])
    }
}
