// One command is carried out: by the rules, then on the tables.
ghost use Rattle.drawing.specs.Taken.{Stepping};
ghost use Rattle.forms.specs.Orders.{seen_command};
ghost use Rattle.rules.specs.Rules as rulebook;
ghost use Rattle.rules.specs.States.{seen_state};
ghost use Rattle.std.specs.Prelude.{◌≡◌};

use crate::taking::take;
use contour::pieces::Piece;
use forms::Command;
use records::kinds::{Aperture, Object};
use rules::decision::Desk;
use rules::rule::Rule;
use rules::state::State;
use table::Table;

// Where reading stands, beside the tables: the graphics state, and how many objects are laid.
#[derive(Clone, Copy)]
pub(crate) struct Progress {
    pub(crate) state: State,
    pub(crate) laid: u32,
}

impl Progress {
    // Before the first command.
    pub(crate) fn start() -> Progress
        ensures state { seen_state result.state ≡ rulebook.start }
        ensures laid { result.laid ≡ 0 }
    {
        Progress {
            state: State::start(),
            laid: 0,
        }
    }

    // Carries a command out and answers where reading stands then.
    #[tactic(auto, unfolding(crate::specs::Books::stepped))]
    pub(crate) fn step(
        self,
        apertures: &mut Table<'_, Aperture>,
        objects: &mut Table<'_, Object>,
        pieces: &mut Table<'_, Piece>,
        command: Command<'_>,
    ) -> Result<Progress, Rule>
        ensures { Stepping self apertures.old objects.old pieces.old (seen_command command.entry) result apertures.new objects.new pieces.new }
    {
        let desk = Desk {
            state: self.state,
            apertures: apertures.as_slice(),
            objects: objects.len(),
            pieces: pieces.len(),
        };
        let decision = desk.decide(command)?;
        let laid = take(apertures, objects, pieces, self.laid, decision.effect)?;
        Ok(Progress {
            state: decision.state,
            laid,
        })
    }
}
