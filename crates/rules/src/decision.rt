// What a command does.
ghost use Rattle.forms.specs.Orders.{seen_command};
ghost use Rattle.records.specs.Records.{seen_aperture};
ghost use Rattle.rules.specs.Rules.{decided, obeyed};
ghost use Rattle.rules.specs.States.{seen_decided, seen_state};
ghost use Rattle.std.specs.Prelude.{◌≡◌, map};

use crate::rule::Rule;
use crate::settings::set;
use crate::state::{Decision, Region, State};
use crate::values::values_of;
use forms::Command;
use records::kinds::{Aperture, Mirror, Owner};

/// What a command is decided on: the graphics state, the apertures that the tables hold, and how
/// many objects and pieces they hold.
#[derive(Clone, Copy)]
pub struct Desk<'a> {
    pub state: State,
    pub apertures: &'a [Aperture],
    pub objects: usize,
    pub pieces: usize,
}

impl Desk<'_> {
    // What a command that may stand does.
    fn obey(&self, command: Command<'_>) -> Result<Decision, Rule>
        ensures { seen_decided result ≡ obeyed (seen_state self.now.state) (map seen_aperture self.now.apertures.now) self.now.objects self.now.pieces (seen_command command.entry) }
    {
        let state = self.state;
        match command {
            Command::Format { format, .. } => set(State {
                format: Some(format),
                ..state
            }),
            Command::Unit(unit) => set(State {
                unit: Some(unit),
                ..state
            }),
            Command::Circle { code, diameter } => self.circle(code.value, diameter.value),
            Command::Rectangle {
                code,
                width,
                height,
            } => self.rectangle(code.value, width.value, height.value),
            Command::Obround {
                code,
                width,
                height,
            } => self.obround(code.value, width.value, height.value),
            Command::BlockOpen { code } => self.open_block(code.value),
            Command::RepeatOpen {
                columns,
                rows,
                step_x,
                step_y,
            } => { self.open_repeat(columns.value, rows.value, step_x.value, step_y.value) }
            Command::BlockClose | Command::RepeatClose => set(state.with_owner(Owner::Layer)),
            Command::Polarity(polarity) => set(State { polarity, ..state }),
            Command::Mirror { x, y } => set(State {
                mirror: Mirror { x, y },
                ..state
            }),
            Command::Mode(mode) => set(State {
                mode: Some(mode),
                ..state
            }),
            Command::MultiQuadrant => set(State {
                arcs: true,
                ..state
            }),
            Command::RegionOpen => set(State {
                region: Region::Inside,
                ..state
            }),
            Command::RegionClose => self.close_region(),
            Command::Attribute { .. } | Command::Comment { .. } | Command::EndOfFile => set(state),
            Command::Select { code } => self.select(code.value),
            Command::Draw { x, y, i, j } => self.draw(values_of(x, y), values_of(i, j)),
            Command::Move { x, y } => self.move_to(values_of(x, y)),
            Command::Flash { x, y } => self.flash(values_of(x, y)),
        }
    }

    /// What a command does: the next state and what a table is to take, or the rule that it breaks.
    #[tactic(auto, unfolding(crate::specs::Rules::decided))]
    pub fn decide(&self, command: Command<'_>) -> Result<Decision, Rule>
        ensures { seen_decided result ≡ decided (seen_state self.now.state) (map seen_aperture self.now.apertures.now) self.now.objects self.now.pieces (seen_command command.entry) }
    {
        if !self.state.allows(command) {
            return Err(Rule::Misplaced);
        }
        self.obey(command)
    }
}
