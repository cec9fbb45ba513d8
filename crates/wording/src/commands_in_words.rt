// Commands in words.
use crate::InWords;
use forms::{AttributeKind, Command, Coordinate, Mode, Polarity};
use std::fmt;
use ticks::Unit;
use words::Part;

// A part of the file as text; its bytes are printable by the rules of words.
impl fmt::Display for InWords<Part<'_>> {
    fn fmt<W: fmt::Write>(&self, f: &mut fmt::Formatter<W>) -> fmt::Result {
        f.write_str(std::str::from_utf8(self.0.text).unwrap_or("?"))
    }
}

// Each type has words of its own, so that a match for each is the table of them.
impl fmt::Display for InWords<Unit> {
    fn fmt<W: fmt::Write>(&self, f: &mut fmt::Formatter<W>) -> fmt::Result {
        f.write_str(match self.0 {
            Unit::Millimetre => "millimetre",
            Unit::Inch => "inch",
        })
    }
}

impl fmt::Display for InWords<AttributeKind> {
    fn fmt<W: fmt::Write>(&self, f: &mut fmt::Formatter<W>) -> fmt::Result {
        f.write_str(match self.0 {
            AttributeKind::File => "file attribute",
            AttributeKind::Aperture => "aperture attribute",
            AttributeKind::Object => "object attribute",
            AttributeKind::Delete => "delete attributes",
        })
    }
}

impl fmt::Display for InWords<Mode> {
    fn fmt<W: fmt::Write>(&self, f: &mut fmt::Formatter<W>) -> fmt::Result {
        f.write_str(match self.0 {
            Mode::Linear => "straight strokes",
            Mode::Clockwise => "clockwise arcs",
            Mode::Counterclockwise => "counterclockwise arcs",
        })
    }
}

impl fmt::Display for InWords<Polarity> {
    fn fmt<W: fmt::Write>(&self, f: &mut fmt::Formatter<W>) -> fmt::Result {
        f.write_str(match self.0 {
            Polarity::Dark => "dark",
            Polarity::Clear => "clear",
        })
    }
}

// A coordinate behind its letter, or nothing where it is not written.
impl fmt::Display for InWords<(char, Option<Coordinate<'_>>)> {
    fn fmt<W: fmt::Write>(&self, f: &mut fmt::Formatter<W>) -> fmt::Result {
        match self.0 {
            (letter, Some(written)) => write!(f, " {letter} {}", written.value),
            (_, None) => Ok(()),
        }
    }
}

impl fmt::Display for InWords<Command<'_>> {
    fn fmt<W: fmt::Write>(&self, f: &mut fmt::Formatter<W>) -> fmt::Result {
        match self.0 {
            Command::Format { format, .. } => write!(
                f,
                "format of {} whole digits and {} decimals",
                format.whole,
                format.decimals.places()
            ),
            Command::Unit(unit) => write!(f, "unit {}", InWords(unit)),
            Command::Circle { code, diameter } => write!(
                f,
                "aperture {} is a circle of {}",
                code.value,
                InWords(diameter.part)
            ),
            Command::Rectangle {
                code,
                width,
                height,
            } => write!(
                f,
                "aperture {} is a rectangle of {} by {}",
                code.value,
                InWords(width.part),
                InWords(height.part)
            ),
            Command::Obround {
                code,
                width,
                height,
            } => write!(
                f,
                "aperture {} is an obround of {} by {}",
                code.value,
                InWords(width.part),
                InWords(height.part)
            ),
            Command::BlockOpen { code } => write!(f, "block {} opens", code.value),
            Command::BlockClose => write!(f, "block closes"),
            Command::RepeatOpen {
                columns,
                rows,
                step_x,
                step_y,
            } => write!(
                f,
                "step and repeat {} by {}, steps {} and {}",
                columns.value,
                rows.value,
                InWords(step_x.part),
                InWords(step_y.part)
            ),
            Command::RepeatClose => write!(f, "step and repeat closes"),
            Command::Polarity(polarity) => write!(f, "polarity {}", InWords(polarity)),
            Command::Mirror { x: false, y: false } => write!(f, "mirror none"),
            Command::Mirror { x: true, y: false } => write!(f, "mirror x"),
            Command::Mirror { x: false, y: true } => write!(f, "mirror y"),
            Command::Mirror { x: true, y: true } => write!(f, "mirror x and y"),
            Command::Attribute { kind, text } if text.text.is_empty() => {
                write!(f, "{}", InWords(kind))
            }
            Command::Attribute { kind, text } => write!(f, "{} {}", InWords(kind), InWords(text)),
            Command::Comment { text } => write!(f, "comment{}", InWords(text)),
            Command::Mode(mode) => write!(f, "mode {}", InWords(mode)),
            Command::MultiQuadrant => write!(f, "arcs in any quadrants"),
            Command::RegionOpen => write!(f, "region opens"),
            Command::RegionClose => write!(f, "region closes"),
            Command::EndOfFile => write!(f, "end of file"),
            Command::Select { code } => write!(f, "select aperture {}", code.value),
            Command::Draw { x, y, i, j } => write!(
                f,
                "draw{}{}{}{}",
                InWords(('X', x)),
                InWords(('Y', y)),
                InWords(('I', i)),
                InWords(('J', j))
            ),
            Command::Move { x, y } => write!(f, "move{}{}", InWords(('X', x)), InWords(('Y', y))),
            Command::Flash { x, y } => write!(f, "flash{}{}", InWords(('X', x)), InWords(('Y', y))),
        }
    }
}
