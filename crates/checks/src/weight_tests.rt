// Depth and laid count of blocks that flash one another.
use forms::Polarity;
use plane::points::{FilePoint, Half};
use records::kinds::{Aperture, Figure, Mirror, Object, Outline, Owner};
use records::weights::{Weight, weigh_aperture};
use std::test::Fail;

fn object(block: usize, outline: Outline) -> Object {
    Object {
        polarity: Polarity::Dark,
        owner: Owner::Block(block),
        outline,
    }
}

fn dot() -> Outline {
    Outline::Circle {
        at: FilePoint { x: 0, y: 0 },
        half: Half { ticks: 1 },
    }
}

fn flash(number: usize) -> Outline {
    Outline::Block {
        number,
        at: FilePoint { x: 0, y: 0 },
        mirror: Mirror { x: false, y: false },
    }
}

// Blocks that each flash the one before twice: depth grows by one, the laid count doubles.
#[test]
fn doubling_blocks_are_weighed_at_once(rt: HostRuntime) -> Result<(), Fail> {
    let mut apertures = Vec::new(rt.alloc());
    let mut objects = Vec::new(rt.alloc());
    for k in 0..100usize {
        apertures.push(Aperture {
            code: 10,
            figure: Figure::Block {
                first: objects.len(),
            },
        })?;
        if k == 0 {
            objects.push(object(0, dot()))?;
        } else {
            objects.push(object(k, flash(k - 1)))?;
            objects.push(object(k, flash(k - 1)))?;
        }
    }
    let cases = [
        (0, 1, 1),
        (1, 2, 2),
        (7, 8, 128),
        (8, 9, 256),
        (19, 9, 524_288),
        (20, 9, 1_000_001),
        (99, 9, 1_000_001),
    ];
    for (number, depth, laid) in cases {
        assert_eq!(rt;
            weigh_aperture(number, apertures.as_slice(), objects.as_slice()),
            Some(Weight { depth, laid }),
            "weight of a doubling block"
        );
    }
    assert_eq!(rt;
        weigh_aperture(100, apertures.as_slice(), objects.as_slice()),
        None
    );
    Ok(())
}

// An empty block, a block of nothing but empty blocks, and a circle between them.
#[test]
fn empty_blocks_lay_nothing(rt: HostRuntime) {
    let apertures = [
        Aperture {
            code: 10,
            figure: Figure::Block { first: 0 },
        },
        Aperture {
            code: 11,
            figure: Figure::Circle {
                half: Half { ticks: 1 },
            },
        },
        Aperture {
            code: 12,
            figure: Figure::Block { first: 0 },
        },
    ];
    let objects = [object(2, flash(0)), object(2, flash(0)), object(1, dot())];
    let cases = [(0, 1, 0), (1, 0, 0), (2, 2, 0)];
    for (number, depth, laid) in cases {
        assert_eq!(rt;
            weigh_aperture(number, &apertures, &objects),
            Some(Weight { depth, laid }),
            "weight of an empty block"
        );
    }
}
