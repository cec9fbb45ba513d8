// The objects of a block.
ghost use Rattle.std.specs.Prelude.{◌≡◌, map};
ghost use Rattle.laid.specs.Stacks.{FlashOf, NextOf};
ghost use Rattle.records.specs.Records.{seen_object, seen_outline};

use crate::kinds::{Flash, Frame};
use records::kinds::{Object, Outline, Owner};

// The block that an outline flashes, if it flashes one.
pub(crate) fn flash_of(outline: Outline) -> Option<Flash>
    ensures { FlashOf (seen_outline outline) result }
{
    match outline {
        Outline::Block { number, at, mirror } => Some(Flash { number, at, mirror }),
        _ => None,
    }
}

impl Frame {
    // The next object of the block, if there is one more.
    pub(crate) fn next_object(&mut self, objects: &[Object]) -> Option<Object>
        ensures { NextOf (map seen_object objects.now) self.old result self.new }
    {
        let object = *objects.get(self.next)?;
        if object.owner != Owner::Block(self.block) {
            return None;
        }
        self.next += 1;
        Some(object)
    }
}
