// Laying the blocks of a drawing, one object at a time.
ghost use Rattle.std.specs.Prelude.{◌≡◌, ◌≤◌, nat_lt};
ghost use Rattle.arrayvec.specs.ArrayVec.{array_vec_len};
ghost use Rattle.laid.specs.Stacks.{Begun, TakenUp, Turned, placed_in};

use crate::drawing::Drawing;
use crate::kinds::{Frame, PlacedObject, Shift};
use crate::objects::flash_of;
use crate::stack::Stack;
use arrayvec::ArrayVec;
use plane::points::Placing;
use records::kinds::Object;

// The number of the layer, which can flash every block.
const LAYER: usize = 128;

// A frame of no block, for the places of a stack that hold none.
impl Default for Frame {
    fn default() -> Frame {
        Frame {
            next: 0,
            block: 0,
            placing: Shift::none().placing(),
            turn: false,
        }
    }
}

impl Stack {
    /// A stack with no block open.
    pub fn new() -> Stack
        ensures { array_vec_len result.frames ≡ 0 }
    {
        Stack {
            frames: ArrayVec::new(),
        }
    }

    /// Whether a block is open.
    pub fn is_busy(&self) -> bool
        ensures { result ≡ nat_lt 0 (array_vec_len self.now.frames) }
    {
        !self.frames.is_empty()
    }

    // Takes up an object of the block `around`: it is to lay now, or the block that it flashes is opened.
    fn take_up(&mut self, drawing: &Drawing, around: Frame, object: Object) -> Option<PlacedObject>
        requires { around.placing.level ≤ array_vec_len self.old.frames }
        ensures { TakenUp drawing.now around.block (placed_in around object) self.old result self.new }
    {
        // no `?`: what is no flash is to lay now
        let Some(flash) = flash_of(object.outline) else {
            return Some(PlacedObject {
                object,
                placing: around.placing,
                turn: around.turn,
            });
        };
        if self.frames.is_full() {
            return None;
        }
        if let Some(frame) = around.opened(drawing, object, flash) {
            self.frames.push(frame);
        }
        None
    }

    /// Begins an object of the layer, moved by a shift: it is to lay now, or its block is opened.
    pub fn begin(&mut self, drawing: &Drawing, object: Object, shift: Shift) -> Option<PlacedObject>
        ensures { Begun drawing.now object shift.x shift.y self.old result self.new }
    {
        let layer = Frame {
            next: 0,
            block: LAYER,
            placing: shift.placing(),
            turn: false,
        };
        self.take_up(drawing, layer, object)
    }

    /// One turn: the next object that is to lay, or a block opened or closed.
    pub fn turn(&mut self, drawing: &Drawing) -> Option<PlacedObject>
        ensures { Turned drawing.now self.old result self.new }
    {
        let mut top = self.frames.pop()?;
        let object = top.next_object(drawing.records.objects)?;
        self.frames.push(top);
        self.take_up(drawing, top, object)
    }
}
