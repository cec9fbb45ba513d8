// The graphics state, and what a command has the tables take.
ghost use Rattle.rules.specs.Rules.{start};
ghost use Rattle.rules.specs.States.{seen_state};
ghost use Rattle.std.specs.Prelude.{◌≡◌};

use contour::pieces::Piece;
use forms::{Format, Mode, Polarity};
use plane::points::FilePoint;
use records::kinds::{Aperture, Mirror, Object, Owner};
use ticks::Unit;

/// Whether a region is open, and in it a contour.
#[derive(Clone, Copy)]
pub enum Region {
    Outside,
    /// open, and no contour begun
    Inside,
    /// the contour begun: its first point, and the number that its first piece has or would have
    Begun { start: FilePoint, first: usize },
}

/// The graphics state.
#[derive(Clone, Copy)]
pub struct State {
    pub format: Option<Format>,
    pub unit: Option<Unit>,
    pub polarity: Polarity,
    pub mirror: Mirror,
    /// the number of the selected aperture's record
    pub aperture: Option<usize>,
    pub mode: Option<Mode>,
    /// G75 has come: a flag without a value
    pub arcs: bool,
    pub point: Option<FilePoint>,
    /// what an object drawn now belongs to: the block or the step and repeat that is open, or the layer
    pub owner: Owner,
    pub region: Region,
}

/// What a command has a table take.
#[derive(Clone, Copy)]
pub enum Effect {
    Nothing,
    Aperture(Aperture),
    Object(Object),
    Piece(Piece),
}

/// What a command comes to: the state behind it, and what a table is to take.
#[derive(Clone, Copy)]
pub struct Decision {
    pub state: State,
    pub effect: Effect,
}

impl State {
    /// The state before the first command.
    pub fn start() -> State
        ensures { seen_state result ≡ start }
    {
        State {
            format: None,
            unit: None,
            polarity: Polarity::Dark,
            mirror: Mirror { x: false, y: false },
            aperture: None,
            mode: None,
            arcs: false,
            point: None,
            owner: Owner::Layer,
            region: Region::Outside,
        }
    }
}
