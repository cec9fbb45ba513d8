// What reading a file answers.
ghost use Rattle.drawing.specs.declared.fault.DrawingFault.TheVariants as fault;
ghost use Rattle.drawing.specs.declared.fault.PlotFault.TheVariants.{Command, Film};
ghost use Rattle.commands.specs.declared.CommandFault.TheVariants.{Text};
ghost use Rattle.std.specs.Prelude.{◌≡◌};

use commands::CommandFault;
use film::fault::FilmFault;
use rules::rule::Rule;
use words::TextFault;

/// Why a file is no drawing: a command cannot be read, or it breaks a rule.
#[derive(Clone, Copy, PartialEq, Eq, Debug)]
pub enum DrawingFault {
    Command(CommandFault),
    // `place` is the command's first content byte, `taken` the number of commands before it
    Broken {
        rule: Rule,
        place: usize,
        taken: usize,
    },
}

impl From<CommandFault> for DrawingFault {
    ghost from_gives = { λ c r. r ≡ fault.Command c };

    fn from(fault: CommandFault) -> DrawingFault {
        DrawingFault::Command(fault)
    }
}

impl From<TextFault> for DrawingFault {
    ghost from_gives = { λ t r. r ≡ fault.Command (Text t) };

    fn from(fault: TextFault) -> DrawingFault {
        DrawingFault::Command(CommandFault::Text(fault))
    }
}

/// Why a file is not plotted: the film or the window refuses it, it is too long, or a command of it
/// is refused.
#[derive(Clone, Copy, PartialEq, Eq, Debug)]
pub enum PlotFault {
    Film(FilmFault),
    TooLong,
    Command(DrawingFault),
}

impl From<DrawingFault> for PlotFault {
    ghost from_gives = { λ c r. r ≡ Command c };

    fn from(fault: DrawingFault) -> PlotFault {
        PlotFault::Command(fault)
    }
}

impl From<FilmFault> for PlotFault {
    ghost from_gives = { λ f r. r ≡ Film f };

    fn from(fault: FilmFault) -> PlotFault {
        PlotFault::Film(fault)
    }
}

/// How many records of each kind a file has, and how many objects they lay.
#[derive(Clone, Copy, PartialEq, Eq, Debug)]
pub struct Drawing {
    pub apertures: usize,
    pub objects: usize,
    pub pieces: usize,
    pub laid: u32,
}
