// Where a command may stand.
ghost use Rattle.forms.specs.Orders.{seen_command};
ghost use Rattle.rules.specs.Rules.{free, in_block, in_repeat, is_begun, is_outside, may_stand, on_layer, ready, straight};
ghost use Rattle.rules.specs.States.{seen_region, seen_state};
ghost use Rattle.std.specs.Prelude.{◌≡◌};

use crate::state::{Region, State};
use forms::{Command, Mode};
use records::kinds::Owner;

impl Region {
    pub(crate) fn is_outside(self) -> bool
        ensures { result ≡ is_outside (seen_region self) }
    {
        matches!(self, Region::Outside)
    }

    pub(crate) fn is_begun(self) -> bool
        ensures { result ≡ is_begun (seen_region self) }
    {
        matches!(self, Region::Begun { .. })
    }
}

impl State {
    // Format and unit have both come. (Pairs of other kinds are asked for their absence elsewhere.)
    fn is_ready(self) -> bool
        ensures { result ≡ ready (seen_state self) }
    {
        self.format.is_some() && self.unit.is_some()
    }

    // They have, and no region is open.
    fn is_free(self) -> bool
        ensures { result ≡ free (seen_state self) }
    {
        self.is_ready() && self.region.is_outside()
    }

    fn is_straight(self) -> bool
        ensures { result ≡ straight self.mode }
    {
        self.mode == Some(Mode::Linear)
    }

    fn is_on_layer(self) -> bool
        ensures { result ≡ on_layer self.owner }
    {
        self.owner == Owner::Layer
    }

    // this and the next are names of two patterns
    fn is_in_block(self) -> bool
        ensures { result ≡ in_block self.owner }
    {
        matches!(self.owner, Owner::Block(_))
    }

    fn is_in_repeat(self) -> bool
        ensures { result ≡ in_repeat self.owner }
    {
        matches!(self.owner, Owner::Repeat(_))
    }

    // Whether a command may stand where the state is this.
    pub(crate) fn allows(self, command: Command<'_>) -> bool
        ensures { result ≡ may_stand (seen_state self) (seen_command command.entry) }
    {
        let outside = self.region.is_outside();
        let ready = self.is_ready();
        let free = self.is_free();
        match command {
            Command::Format { .. } => self.format.is_none(),
            Command::Unit(_) => self.unit.is_none(),
            Command::Comment { .. } => true,
            Command::Attribute { .. } => outside,
            Command::Circle { .. }
            | Command::Rectangle { .. }
            | Command::Obround { .. }
            | Command::Polarity(_)
            | Command::Mirror { .. }
            | Command::MultiQuadrant
            | Command::RegionOpen
            | Command::Select { .. }
            | Command::Flash { .. } => free,
            Command::BlockOpen { .. } | Command::RepeatOpen { .. } | Command::EndOfFile => free
                && self.is_on_layer(),
            Command::BlockClose => free && self.is_in_block(),
            Command::RepeatClose => free && self.is_in_repeat(),
            Command::Move { .. } => ready,
            Command::RegionClose => ready && !outside,
            Command::Mode(mode) => ready && (outside || mode == Mode::Linear),
            Command::Draw { i, j, .. } => {
                let straight = self.is_straight();
                let curved = i.is_some() || j.is_some();
                ready && (outside || straight) && !(straight && curved)
            }
        }
    }
}
