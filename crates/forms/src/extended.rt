// The forms of extended commands.

ghost use Rattle.std.specs.Prelude.{◌≡◌};
ghost use Rattle.forms.specs.Numbers.{left, seen_numeral};
ghost use Rattle.forms.specs.Orders.{seen_option};
ghost use Rattle.forms.specs.Extended.{unit_of, polarity_of, mirror_of, block_of, repeat_of, seen_sides, sides_of, shape_of, aperture_of, decimals_of, format_digits, format_of, attribute_of, extended_of};

use crate::rest::Rest;
use crate::{AttributeKind, Code, Command, Format, Polarity, Size};
use numerals::{code_number, count_number, size_millionths};
use ticks::{Decimals, Unit};

// The next three are each a table of what may stand behind a head; one function for them would take
// the table as an argument.

#[tactic(auto, unfolding(crate::specs::Extended::unit_of))]
fn unit(text: &[u8]) -> Option<Command<'_>>
    ensures { seen_option result ≡ unit_of text.now }
{
    match text {
        b"MM" => Some(Command::Unit(Unit::Millimetre)),
        b"IN" => Some(Command::Unit(Unit::Inch)),
        _ => None,
    }
}

#[tactic(auto, unfolding(crate::specs::Extended::polarity_of))]
fn polarity(text: &[u8]) -> Option<Command<'_>>
    ensures { seen_option result ≡ polarity_of text.now }
{
    match text {
        b"D" => Some(Command::Polarity(Polarity::Dark)),
        b"C" => Some(Command::Polarity(Polarity::Clear)),
        _ => None,
    }
}

#[tactic(auto, unfolding(crate::specs::Extended::mirror_of))]
fn mirror(text: &[u8]) -> Option<Command<'_>>
    ensures { seen_option result ≡ mirror_of text.now }
{
    match text {
        b"N" => Some(Command::Mirror { x: false, y: false }),
        b"X" => Some(Command::Mirror { x: true, y: false }),
        b"Y" => Some(Command::Mirror { x: false, y: true }),
        b"XY" => Some(Command::Mirror { x: true, y: true }),
        _ => None,
    }
}

#[tactic(auto, unfolding(crate::specs::Extended::block_of))]
fn block(rest: Rest<'_>) -> Option<Command<'_>>
    ensures { seen_option result ≡ block_of (left rest.entry) }
{
    if rest.part.text.is_empty() {
        return Some(Command::BlockClose);
    }
    let (code, rest) = rest.numeral_after(b'D', code_number)?;
    rest.closed(Command::BlockOpen { code })
}

#[tactic(auto, unfolding(crate::specs::Extended::repeat_of))]
fn repeat(rest: Rest<'_>) -> Option<Command<'_>>
    ensures { seen_option result ≡ repeat_of (left rest.entry) }
{
    if rest.part.text.is_empty() {
        return Some(Command::RepeatClose);
    }
    let (columns, rest) = rest.numeral_after(b'X', count_number)?;
    let (rows, rest) = rest.numeral_after(b'Y', count_number)?;
    let (step_x, rest) = rest.numeral_after(b'I', size_millionths)?;
    let (step_y, rest) = rest.numeral_after(b'J', size_millionths)?;
    rest.closed(Command::RepeatOpen {
        columns,
        rows,
        step_x,
        step_y,
    })
}

// The two sizes of a rectangle or an obround.
#[tactic(auto, unfolding(crate::specs::Extended::sides_of))]
fn sides(rest: Rest<'_>) -> Option<(Size<'_>, Size<'_>)>
    ensures { seen_sides result ≡ sides_of (left rest.entry) }
{
    let (width, rest) = rest.numeral_after(b',', size_millionths)?;
    let (height, rest) = rest.numeral_after(b'X', size_millionths)?;
    rest.closed((width, height))
}

#[tactic(auto, unfolding(crate::specs::Extended::shape_of))]
fn shape<'a>(code: Code<'a>, rest: Rest<'a>) -> Option<Command<'a>>
    ensures { seen_option result ≡ shape_of (seen_numeral code.entry) (left rest.entry) }
{
    let letter = rest.part.text.first()?;
    let rest = rest.past(1);
    match letter {
        b'C' => {
            let (diameter, rest) = rest.numeral_after(b',', size_millionths)?;
            rest.closed(Command::Circle { code, diameter })
        }
        b'R' => {
            let (width, height) = sides(rest)?;
            Some(Command::Rectangle {
                code,
                width,
                height,
            })
        }
        b'O' => {
            let (width, height) = sides(rest)?;
            Some(Command::Obround {
                code,
                width,
                height,
            })
        }
        _ => None,
    }
}

#[tactic(auto, unfolding(crate::specs::Extended::aperture_of))]
fn aperture(rest: Rest<'_>) -> Option<Command<'_>>
    ensures { seen_option result ≡ aperture_of (left rest.entry) }
{
    let (code, rest) = rest.numeral_after(b'D', code_number)?;
    shape(code, rest)
}

// an Option and no TryFrom, since a digit that is none of these is only a form that is none
fn decimals(digit: u8) -> Option<Decimals>
    ensures { result ≡ decimals_of digit }
{
    match digit {
        b'4' => Some(Decimals::Four),
        b'5' => Some(Decimals::Five),
        b'6' => Some(Decimals::Six),
        _ => None,
    }
}

fn format_digits(whole: u8, part: u8) -> Option<Format>
    ensures { result ≡ format_digits whole part }
{
    if !matches!(whole, b'1'..=b'6') {
        return None;
    }
    Some(Format {
        whole: whole - b'0',
        decimals: decimals(part)?,
    })
}

#[tactic(auto, unfolding(crate::specs::Extended::format_of))]
fn format(rest: Rest<'_>) -> Option<Command<'_>>
    ensures { seen_option result ≡ format_of (left rest.entry) }
{
    // the pattern is the test, which `?` cannot make
    let [b'L', b'A', b'X', whole, part, b'Y', y_whole, y_part] = rest.part.text else {
        return None;
    };
    if (whole, part) != (y_whole, y_part) {
        return None;
    }
    let format = format_digits(*whole, *part)?;
    Some(Command::Format {
        digits: rest.past(3).front(2),
        format,
    })
}

fn attribute(kind: AttributeKind, rest: Rest<'_>) -> Option<Command<'_>>
    ensures { seen_option result ≡ attribute_of kind (left rest.entry) }
{
    Some(Command::Attribute {
        kind,
        text: rest.part,
    })
}

// The command that an extended command's content is.
#[tactic(auto, unfolding(crate::specs::Extended::extended_of))]
pub(crate) fn extended_command(content: Rest<'_>) -> Option<Command<'_>>
    ensures { seen_option result ≡ extended_of (left content.entry) }
{
    let head = content.part.text.first_chunk::<2>()?;
    let rest = content.past(2);
    match head {
        b"FS" => format(rest),
        b"MO" => unit(rest.part.text),
        b"AD" => aperture(rest),
        b"AB" => block(rest),
        b"SR" => repeat(rest),
        b"LP" => polarity(rest.part.text),
        b"LM" => mirror(rest.part.text),
        b"TF" => attribute(AttributeKind::File, rest),
        b"TA" => attribute(AttributeKind::Aperture, rest),
        b"TO" => attribute(AttributeKind::Object, rest),
        b"TD" => attribute(AttributeKind::Delete, rest),
        _ => None,
    }
}
