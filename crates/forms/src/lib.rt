// The forms of commands: what a word says.
//
// A command is told by its first letters. Heads of extended commands: FS, MO, AD, AB, SR, LP, LM and
// TF, TA, TO, TD; a word command is a comment, a fixed word such as G01, a selection Dk or an
// operation. `form_of` answers the `Command` that a word is, or None where it has none of the forms.
//
// Each case of `Command` holds the parts of the file that it was read from, with their offsets, and
// beside each numeral its value. Nothing is copied.
//
// specs/Extended.antt and specs/Plain.antt have the forms one by one, specs/Forms.antt joins them.

#![tactic(auto)]

ghost use Rattle.std.specs.Prelude.{◌≡◌};
ghost use Rattle.forms.specs.Forms.{form_of, within};
ghost use Rattle.forms.specs.Orders.{seen_option};
ghost use Rattle.words.specs.Words.{piece, seen};

mod extended;
mod numbers;
mod plain;
mod rest;

use extended::extended_command;
use plain::plain_command;
use rest::Rest;
use ticks::{Decimals, Unit};
use words::{Part, Word};

// A number as the file writes it, and its value.
#[derive(Clone, Copy, PartialEq, Eq, Debug)]
pub struct Numeral<'a, T> {
    pub part: Part<'a>,
    pub value: T,
}

// An aperture code, 10 to 999.
pub type Code<'a> = Numeral<'a, u32>;

// A repeat count, 0 to 999.
pub type Count<'a> = Numeral<'a, u32>;

// A size in millionths of the unit.
pub type Size<'a> = Numeral<'a, u64>;

// A coordinate as it is written: a whole number, whose decimals the format tells.
pub type Coordinate<'a> = Numeral<'a, i64>;

// The digits of a coordinate before and after the point that is not written.
#[derive(Clone, Copy, PartialEq, Eq, Debug)]
pub struct Format {
    pub whole: u8,
    pub decimals: Decimals,
}

#[derive(Clone, Copy, PartialEq, Eq, Debug)]
pub enum Polarity {
    Dark,
    Clear,
}

// How a draw goes from the current point.
#[derive(Clone, Copy, PartialEq, Eq, Debug)]
pub enum Mode {
    Linear,
    Clockwise,
    Counterclockwise,
}

// What an attribute is about: TF, TA, TO; TD takes attributes back.
#[derive(Clone, Copy, PartialEq, Eq, Debug)]
pub enum AttributeKind {
    File,
    Aperture,
    Object,
    Delete,
}

// A command by its form, with the parts of the file that it was read from.
#[derive(Clone, Copy, PartialEq, Eq, Debug)]
pub enum Command<'a> {
    // FSLAXnmYnm: `digits` is the first nm
    Format {
        digits: Part<'a>,
        format: Format,
    },
    // MOMM, MOIN
    Unit(Unit),
    // ADDkC,s
    Circle {
        code: Code<'a>,
        diameter: Size<'a>,
    },
    // ADDkR,sXs
    Rectangle {
        code: Code<'a>,
        width: Size<'a>,
        height: Size<'a>,
    },
    // ADDkO,sXs
    Obround {
        code: Code<'a>,
        width: Size<'a>,
        height: Size<'a>,
    },
    // ABDk and AB
    BlockOpen {
        code: Code<'a>,
    },
    BlockClose,
    // SRXiYjIsJs and SR
    RepeatOpen {
        columns: Count<'a>,
        rows: Count<'a>,
        step_x: Size<'a>,
        step_y: Size<'a>,
    },
    RepeatClose,
    // LPD, LPC
    Polarity(Polarity),
    // LMN, LMX, LMY, LMXY
    Mirror {
        x: bool,
        y: bool,
    },
    // TF, TA, TO, TD with any text
    Attribute {
        kind: AttributeKind,
        text: Part<'a>,
    },
    // G04 with any text
    Comment {
        text: Part<'a>,
    },
    // G01, G02, G03
    Mode(Mode),
    // G75
    MultiQuadrant,
    // G36 and G37
    RegionOpen,
    RegionClose,
    // M02
    EndOfFile,
    // Dk
    Select {
        code: Code<'a>,
    },
    // D01, D02 and D03
    Draw {
        x: Option<Coordinate<'a>>,
        y: Option<Coordinate<'a>>,
        i: Option<Coordinate<'a>>,
        j: Option<Coordinate<'a>>,
    },
    Move {
        x: Option<Coordinate<'a>>,
        y: Option<Coordinate<'a>>,
    },
    Flash {
        x: Option<Coordinate<'a>>,
        y: Option<Coordinate<'a>>,
    },
}

// The command that a word is by its form, where a value has at most `longest` digits.
// (A word past the last address has no form; no file has such a word.)
#[tactic(auto, unfolding(crate::specs::Forms::form_of))]
pub fn form_of<'a>(word: Word<'a>, longest: usize) -> Option<Command<'a>>
    ensures { seen_option result ≡ within (piece word.entry.content) (form_of longest (seen word.entry)) }
{
    let content = Rest::of(word.content)?;
    if word.extended {
        extended_command(content)
    } else {
        plain_command(content, longest)
    }
}
