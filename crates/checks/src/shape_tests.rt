use contour::contour::Contour;
use contour::pieces::Piece;
use plane::points::{Bounds, FileCentre, FilePoint, Half, Place, Placing, Point};
use shapes::flashes::{Circle, Obround, Rectangle};
use shapes::shape::Shape;
use std::process::Abort;
use strokes::strokes::{ArcStroke, Stroke};

// a point, and whether it is covered: a flag, since the point is there either way
#[derive(Clone, Copy)]
struct Case {
    x: i32,
    y: i32,
    covered: bool,
}

const fn yes(x: i32, y: i32) -> Case {
    Case {
        x,
        y,
        covered: true,
    }
}

const fn no(x: i32, y: i32) -> Case {
    Case {
        x,
        y,
        covered: false,
    }
}

fn lies_in(b: Bounds, x: i32, y: i32) -> bool {
    (b.left..=b.right).contains(&x) && (b.bottom..=b.top).contains(&y)
}

fn agrees_at<S: Shape>(rt: &impl Abort, shape: &S, c: Case) {
    let p = Point::new(c.x, c.y).expect(rt, "no such point");
    assert_eq!(rt; shape.covers(p), c.covered);
    assert!(rt; !c.covered || lies_in(shape.bounds(), c.x, c.y));
}

// the shape covers what the cases say, within its box, and not the farthest points of the plane
fn agrees<S: Shape>(rt: &impl Abort, shape: &S, cases: &[Case]) {
    for c in cases {
        agrees_at(rt, shape, *c);
    }
    for x in [-1_000_000, 1_000_000] {
        for y in [-1_000_000, 1_000_000] {
            agrees_at(rt, shape, no(x, y));
        }
    }
}

#[test]
fn circles(rt: HostRuntime) {
    let small = Circle {
        place: Place { x: 0, y: 0 },
        half: Half { ticks: 5 },
    };
    agrees(
        &rt,
        &small,
        &[yes(3, 4), no(4, 4), yes(5, 0), no(6, 0), yes(-3, -4)],
    );
    let none = Circle {
        place: Place { x: 0, y: 0 },
        half: Half { ticks: 0 },
    };
    agrees(&rt, &none, &[no(0, 0), no(1, 0)]);
    let far = Circle {
        place: Place {
            x: 345_000,
            y: -345_000,
        },
        half: Half { ticks: 5_000 },
    };
    agrees(
        &rt,
        &far,
        &[
            yes(350_000, -345_000),
            no(350_001, -345_000),
            yes(348_000, -341_000),
            no(348_001, -341_000),
        ],
    );
}

#[test]
fn rectangles(rt: HostRuntime) {
    let small = Rectangle {
        place: Place { x: 1, y: 1 },
        a: Half { ticks: 3 },
        b: Half { ticks: 2 },
    };
    agrees(
        &rt,
        &small,
        &[yes(4, 3), yes(-2, -1), no(5, 1), no(1, 4), no(-3, 1)],
    );
    let dot = Rectangle {
        place: Place { x: 0, y: 0 },
        a: Half { ticks: 0 },
        b: Half { ticks: 0 },
    };
    agrees(&rt, &dot, &[yes(0, 0), no(1, 0), no(0, -1)]);
    let far = Rectangle {
        place: Place {
            x: -345_000,
            y: 345_000,
        },
        a: Half { ticks: 5_000 },
        b: Half { ticks: 1 },
    };
    agrees(
        &rt,
        &far,
        &[
            yes(-350_000, 345_001),
            no(-350_001, 345_000),
            no(-345_000, 345_002),
        ],
    );
}

#[test]
fn obrounds(rt: HostRuntime) {
    let lying = Obround {
        place: Place { x: 0, y: 0 },
        a: Half { ticks: 5 },
        b: Half { ticks: 2 },
    };
    agrees(
        &rt,
        &lying,
        &[
            yes(5, 0),
            yes(-5, 0),
            yes(3, 2),
            no(4, 2),
            no(6, 0),
            no(0, 3),
        ],
    );
    let upright = Obround {
        place: Place { x: 0, y: 0 },
        a: Half { ticks: 2 },
        b: Half { ticks: 5 },
    };
    agrees(
        &rt,
        &upright,
        &[
            yes(0, 5),
            yes(0, -5),
            yes(2, 3),
            no(2, 4),
            no(0, 6),
            no(3, 0),
        ],
    );
    let far = Obround {
        place: Place {
            x: 345_000,
            y: 345_000,
        },
        a: Half { ticks: 5_000 },
        b: Half { ticks: 5_000 },
    };
    agrees(
        &rt,
        &far,
        &[
            yes(350_000, 345_000),
            yes(348_000, 349_000),
            no(348_000, 349_001),
        ],
    );
}

#[test]
fn strokes_of_the_rules(rt: HostRuntime) {
    let slanted = Stroke {
        start: Place { x: 0, y: 0 },
        end: Place { x: 30, y: 40 },
        half: Half { ticks: 5 },
    };
    agrees(
        &rt,
        &slanted,
        &[
            yes(11, 23),
            no(11, 24),
            yes(-3, -4),
            no(-4, -4),
            yes(33, 44),
            yes(15, 20),
        ],
    );
    let still = Stroke {
        start: Place { x: 0, y: 0 },
        end: Place { x: 0, y: 0 },
        half: Half { ticks: 5 },
    };
    agrees(&rt, &still, &[yes(3, 4), no(4, 4), no(100, 100)]);
    let none = Stroke {
        start: Place { x: 0, y: 0 },
        end: Place { x: 10, y: 0 },
        half: Half { ticks: 0 },
    };
    agrees(&rt, &none, &[no(0, 0), no(5, 0), no(10, 0)]);
    let long = Stroke {
        start: Place {
            x: -345_000,
            y: -345_000,
        },
        end: Place {
            x: 345_000,
            y: 345_000,
        },
        half: Half { ticks: 5_000 },
    };
    agrees(
        &rt,
        &long,
        &[
            yes(0, 0),
            yes(7_071, 0),
            no(7_072, 0),
            yes(350_000, 345_000),
            no(350_001, 345_000),
        ],
    );
}

#[test]
fn arcs_of_the_rules(rt: HostRuntime) {
    let centre = Place { x: 0, y: 0 };
    let start = Place { x: 50, y: 0 };
    let end = Place { x: 0, y: 50 };
    let half = Half { ticks: 10 };
    let left = ArcStroke {
        centre,
        start,
        end,
        half,
        clockwise: false,
    };
    agrees(
        &rt,
        &left,
        &[
            yes(36, 48),
            yes(24, 32),
            yes(-3, 52),
            no(37, 48),
            no(-36, 48),
            no(23, 32),
        ],
    );
    let right = ArcStroke {
        centre,
        start,
        end,
        half,
        clockwise: true,
    };
    agrees(
        &rt,
        &right,
        &[yes(-36, 48), no(36, 48), yes(-30, -40), yes(50, 3)],
    );
    let ring = ArcStroke {
        centre,
        start,
        end: start,
        half,
        clockwise: true,
    };
    agrees(
        &rt,
        &ring,
        &[
            yes(-50, 0),
            yes(0, 60),
            no(0, 61),
            yes(0, -40),
            no(0, -39),
            no(0, 0),
        ],
    );
    let filled = ArcStroke {
        centre,
        start: Place { x: 5, y: 0 },
        end: Place { x: 5, y: 0 },
        half,
        clockwise: false,
    };
    agrees(&rt, &filled, &[yes(0, 0), yes(-15, 0), no(-16, 0)]);
}

#[test]
fn arcs_of_the_greatest_size(rt: HostRuntime) {
    let centre = Place {
        x: -345_000,
        y: -345_000,
    };
    let start = Place {
        x: 345_000,
        y: -345_000,
    };
    let end = Place {
        x: -345_000,
        y: 345_000,
    };
    let half = Half { ticks: 5_000 };
    let wide = ArcStroke {
        centre,
        start,
        end,
        half,
        clockwise: false,
    };
    agrees(
        &rt,
        &wide,
        &[
            yes(69_000, 207_000),
            yes(72_000, 211_000),
            no(72_001, 211_000),
            yes(66_000, 203_000),
            no(65_999, 203_000),
        ],
    );
    let rest = ArcStroke {
        centre,
        start,
        end,
        half,
        clockwise: true,
    };
    agrees(
        &rt,
        &rest,
        &[
            no(69_000, 207_000),
            yes(-759_000, -897_000),
            no(-345_000, -345_000),
        ],
    );
}

#[test]
fn contours(rt: HostRuntime) {
    let start = FilePoint { x: 0, y: 0 };
    let right = Piece {
        end: FilePoint { x: 10, y: 0 },
    };
    let up = Piece {
        end: FilePoint { x: 10, y: 10 },
    };
    let left = Piece {
        end: FilePoint { x: 0, y: 10 },
    };
    let tile = [right, up, left, Piece { end: start }];
    let here = Placing {
        mirror_x: false,
        mirror_y: false,
        dx: 0,
        dy: 0,
        level: 0,
    };
    let far = Placing {
        mirror_x: true,
        mirror_y: false,
        dx: 300_000,
        dy: -300_000,
        level: 8,
    };
    let near = Contour::new(start, &tile, here).expect(&rt, "it is closed");
    agrees(
        &rt,
        &near,
        &[
            yes(0, 0),
            yes(0, 5),
            yes(9, 9),
            no(10, 5),
            no(5, 10),
            no(-1, 5),
            no(5, -1),
        ],
    );
    let mirrored = Contour::new(start, &tile, far).expect(&rt, "it is closed");
    agrees(
        &rt,
        &mirrored,
        &[
            yes(299_990, -300_000),
            yes(299_999, -299_991),
            no(300_000, -299_995),
            no(299_995, -299_990),
        ],
    );
    assert!(rt; Contour::new(start, &[right, up, left], here).is_none());
}

#[test]
fn boxes(rt: HostRuntime) {
    let stroke = Stroke {
        start: Place { x: 30, y: 0 },
        end: Place { x: 0, y: 40 },
        half: Half { ticks: 5 },
    };
    let along = Bounds {
        left: -5,
        right: 35,
        bottom: -5,
        top: 45,
    };
    assert_eq!(rt; stroke.bounds(), along);
    let arc = ArcStroke {
        centre: Place { x: 100, y: 0 },
        start: Place { x: 150, y: 0 },
        end: Place { x: 100, y: 52 },
        half: Half { ticks: 10 },
        clockwise: false,
    };
    let about = Bounds {
        left: 38,
        right: 162,
        bottom: -62,
        top: 62,
    };
    assert_eq!(rt; arc.bounds(), about);
}

#[test]
fn points_past_the_ends(rt: HostRuntime) {
    assert!(rt; Point::new(1_000_000, -1_000_000).is_some() && Point::new(1_000_001, 0).is_none());
    assert!(rt; Point::new(0, -1_000_001).is_none() && Point::new(-2_147_483_648, 0).is_none());
    assert!(rt; Place::new(-345_000, 345_000).is_some() && Place::new(0, 345_001).is_none());
    assert!(rt; FilePoint::new(30_000, -30_000).is_some() && FilePoint::new(-30_001, 0).is_none());
    assert!(rt;
        FileCentre::new(45_000, -45_000).is_some() && FileCentre::new(0, -45_001).is_none()
    );
    assert!(rt; Half::new(5_000).is_some() && Half::new(5_001).is_none());
}
