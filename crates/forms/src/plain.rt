// The forms of word commands.

ghost use Rattle.std.specs.Prelude.{◌≡◌};
ghost use Rattle.std.specs.Option as options;
ghost use Rattle.forms.specs.Numbers.{left, seen_numeral, seen_then};
ghost use Rattle.forms.specs.Orders.{seen_option};
ghost use Rattle.forms.specs.Plain.{comment_of, fixed_of, select_of, maybe_after, seen_two, seen_pair, pair_of, absent, deed_of, operation_of, plain_of};

use crate::rest::Rest;
use crate::{Command, Coordinate, Mode};
use numerals::{code_number, coordinate_value};

fn comment(content: Rest<'_>) -> Option<Command<'_>>
    ensures { seen_option result ≡ comment_of (left content.entry) }
{
    // the pattern is the test, which `?` cannot make
    let [b'G', b'0', b'4', ..] = content.part.text else {
        return None;
    };
    Some(Command::Comment {
        text: content.past(3).part,
    })
}

fn fixed(text: &[u8]) -> Option<Command<'_>>
    ensures { seen_option result ≡ fixed_of text.now }
{
    match text {
        b"G01" => Some(Command::Mode(Mode::Linear)),
        b"G02" => Some(Command::Mode(Mode::Clockwise)),
        b"G03" => Some(Command::Mode(Mode::Counterclockwise)),
        b"G75" => Some(Command::MultiQuadrant),
        b"G36" => Some(Command::RegionOpen),
        b"G37" => Some(Command::RegionClose),
        b"M02" => Some(Command::EndOfFile),
        _ => None,
    }
}

fn select(content: Rest<'_>) -> Option<Command<'_>>
    ensures { seen_option result ≡ select_of (left content.entry) }
{
    let (code, rest) = content.numeral_after(b'D', code_number)?;
    rest.closed(Command::Select { code })
}

// The coordinate behind the letter, where that letter comes next.
#[tactic(auto, unfolding(crate::specs::Plain::maybe_after))]
fn maybe_coordinate<'a>(
    from: Rest<'a>,
    letter: u8,
    longest: usize,
) -> Option<(Option<Coordinate<'a>>, Rest<'a>)>
    ensures { seen_then (options.option_map seen_numeral) result ≡ maybe_after longest letter (left from.entry) }
{
    if !from.begins(letter) {
        return Some((None, from));
    }
    let (coordinate, rest) = from.numeral_after(letter, |text| coordinate_value(text, longest))?;
    Some((Some(coordinate), rest))
}

// Two coordinates in this order, either of which may be absent, and what follows.
#[derive(Clone, Copy)]
struct Pair<'a> {
    first: Option<Coordinate<'a>>,
    second: Option<Coordinate<'a>>,
    rest: Rest<'a>,
}

impl Pair<'_> {
    fn is_absent(self) -> bool
        ensures { result ≡ absent (seen_two self.entry) }
    {
        self.first.is_none() && self.second.is_none()
    }
}

#[tactic(auto, unfolding(crate::specs::Plain::pair_of))]
fn two_coordinates<'a>(from: Rest<'a>, one: u8, two: u8, longest: usize) -> Option<Pair<'a>>
    ensures { seen_pair result ≡ pair_of longest one two (left from.entry) }
{
    let (first, rest) = maybe_coordinate(from, one, longest)?;
    let (second, rest) = maybe_coordinate(rest, two, longest)?;
    Some(Pair {
        first,
        second,
        rest,
    })
}

// The operation that the last three letters tell; only D01 takes an offset to the arc's centre.
fn deed<'a>(point: Pair<'a>, offset: Pair<'a>) -> Option<Command<'a>>
    ensures { seen_option result ≡ deed_of (seen_two point.entry) (seen_two offset.entry) }
{
    let (x, y) = (point.first, point.second);
    let straight = offset.is_absent();
    match offset.rest.part.text {
        b"D01" => Some(Command::Draw {
            x,
            y,
            i: offset.first,
            j: offset.second,
        }),
        b"D02" if straight => Some(Command::Move { x, y }),
        b"D03" if straight => Some(Command::Flash { x, y }),
        _ => None,
    }
}

fn operation(content: Rest<'_>, longest: usize) -> Option<Command<'_>>
    ensures { seen_option result ≡ operation_of longest (left content.entry) }
{
    let point = two_coordinates(content, b'X', b'Y', longest)?;
    let offset = two_coordinates(point.rest, b'I', b'J', longest)?;
    deed(point, offset)
}

// The command that a word command's content is, where a value has at most `longest` digits.
pub(crate) fn plain_command(content: Rest<'_>, longest: usize) -> Option<Command<'_>>
    ensures { seen_option result ≡ plain_of longest (left content.entry) }
{
    // `or` would try every form each time, and `or_else` would have to spell out the contract of each
    // closure, since `Rest` has a ghost field
    if let Some(command) = comment(content) {
        return Some(command);
    }
    if let Some(command) = fixed(content.part.text) {
        return Some(command);
    }
    if let Some(command) = select(content) {
        return Some(command);
    }
    operation(content, longest)
}
