// Records in words. Lengths and points are ticks.
use crate::InWords;
use contour::pieces::Piece;
use plane::points::Spot;
use records::kinds::{Aperture, Figure, Mirror, Object, Outline, Owner};
use std::fmt;

impl<const LIMIT: u32> fmt::Display for InWords<Spot<LIMIT>> {
    fn fmt<W: fmt::Write>(&self, f: &mut fmt::Formatter<W>) -> fmt::Result {
        write!(f, "{},{}", self.0.x, self.0.y)
    }
}

// How a block is mirrored, behind its place.
impl fmt::Display for InWords<Mirror> {
    fn fmt<W: fmt::Write>(&self, f: &mut fmt::Formatter<W>) -> fmt::Result {
        f.write_str(match (self.0.x, self.0.y) {
            (false, false) => "",
            (true, false) => ", mirrored in x",
            (false, true) => ", mirrored in y",
            (true, true) => ", mirrored in x and y",
        })
    }
}

impl fmt::Display for InWords<Figure> {
    fn fmt<W: fmt::Write>(&self, f: &mut fmt::Formatter<W>) -> fmt::Result {
        match self.0 {
            Figure::Circle { half } => write!(f, "circle of half {}", half.ticks),
            Figure::Rectangle { a, b } => {
                write!(f, "rectangle of halves {} and {}", a.ticks, b.ticks)
            }
            Figure::Obround { a, b } => write!(f, "obround of halves {} and {}", a.ticks, b.ticks),
            Figure::Block { first } => write!(f, "block from object {first} on"),
        }
    }
}

impl fmt::Display for InWords<Outline> {
    fn fmt<W: fmt::Write>(&self, f: &mut fmt::Formatter<W>) -> fmt::Result {
        match self.0 {
            Outline::Circle { at, half } => {
                write!(f, "circle at {} of half {}", InWords(at), half.ticks)
            }
            Outline::Rectangle { at, a, b } => write!(
                f,
                "rectangle at {} of halves {} and {}",
                InWords(at),
                a.ticks,
                b.ticks
            ),
            Outline::Obround { at, a, b } => write!(
                f,
                "obround at {} of halves {} and {}",
                InWords(at),
                a.ticks,
                b.ticks
            ),
            Outline::Stroke { from, to, half } => write!(
                f,
                "stroke from {} to {} of half {}",
                InWords(from),
                InWords(to),
                half.ticks
            ),
            Outline::Arc {
                from,
                to,
                centre,
                clockwise,
                half,
            } => write!(
                f,
                "{} arc from {} to {} about {} of half {}",
                if clockwise {
                    "clockwise"
                } else {
                    "counterclockwise"
                },
                InWords(from),
                InWords(to),
                InWords(centre),
                half.ticks
            ),
            Outline::Contour {
                start,
                first,
                count,
            } => write!(
                f,
                "contour from {} along {count} pieces from piece {first} on",
                InWords(start)
            ),
            Outline::Block { number, at, mirror } => write!(
                f,
                "block of aperture {number} at {}{}",
                InWords(at),
                InWords(mirror)
            ),
        }
    }
}

// Where an object belongs, behind its outline.
impl fmt::Display for InWords<Owner> {
    fn fmt<W: fmt::Write>(&self, f: &mut fmt::Formatter<W>) -> fmt::Result {
        match self.0 {
            Owner::Layer => Ok(()),
            Owner::Block(number) => write!(f, ", in the block of aperture {number}"),
            Owner::Repeat(r) => write!(
                f,
                ", in a step and repeat of {} by {}, steps {} and {}",
                r.columns, r.rows, r.step_x, r.step_y
            ),
        }
    }
}

/// A record and its number, on a line.
#[derive(Clone, Copy)]
pub struct Numbered<T> {
    pub number: usize,
    pub record: T,
}

impl fmt::Display for Numbered<Aperture> {
    fn fmt<W: fmt::Write>(&self, f: &mut fmt::Formatter<W>) -> fmt::Result {
        let Aperture { code, figure } = self.record;
        write!(f, "aperture {}: D{code} {}", self.number, InWords(figure))
    }
}

impl fmt::Display for Numbered<Object> {
    fn fmt<W: fmt::Write>(&self, f: &mut fmt::Formatter<W>) -> fmt::Result {
        let Object {
            polarity,
            owner,
            outline,
        } = self.record;
        write!(
            f,
            "object {}: {} {}{}",
            self.number,
            InWords(polarity),
            InWords(outline),
            InWords(owner)
        )
    }
}

impl fmt::Display for Numbered<Piece> {
    fn fmt<W: fmt::Write>(&self, f: &mut fmt::Formatter<W>) -> fmt::Result {
        write!(f, "piece {}: to {}", self.number, InWords(self.record.end))
    }
}
