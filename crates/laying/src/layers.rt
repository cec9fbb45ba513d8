// Laying the objects of a layer, with its blocks and its step and repeat.
// Most functions take the pane and the drawing: a struct of both would say at each call that its drawing stays.
ghost use Rattle.laid.specs.Laid.{laid_objects};
ghost use Rattle.laid.specs.Stacks.{listed};
ghost use Rattle.laying.specs.Lays.{LayOutcome, Lays};
ghost use Rattle.laying.specs.Steps.{all_copies, column_at, copy_at, moved_object, moved_objects, numbered, whole_of};
ghost use Rattle.paint.specs.Panes.{seen_pane};
ghost use Rattle.records.specs.Records.{seen_aperture, seen_object, seen_piece};
ghost use Rattle.std.specs.Prelude.{◌≡◌, map};

use crate::objects::lay_object;
use film::fault::FilmFault;
use film::film::Film;
use film::window::Window;
use laid::drawing::{Drawing, Records};
use laid::groups::group;
use laid::kinds::{PlacedObject, Shift};
use laid::stack::Stack;
use paint::pane::Pane;
use records::kinds::{Object, Owner, Repeat};

// Lays what the walk gives, if it gives anything.
fn lay_given<F: Film>(pane: &mut Pane<F>, drawing: &Drawing, given: Option<PlacedObject>)
    ensures { Lays (seen_pane pane.old) (listed drawing.now given) (seen_pane pane.new) }
{
    if let Some(placed) = given {
        lay_object(pane, drawing.records.pieces, placed);
    }
}

// Lays an object of the layer, moved by a shift: itself, or object by object the block that it flashes.
fn lay_moved<F: Film>(pane: &mut Pane<F>, drawing: &Drawing, object: Object, shift: Shift)
    ensures { Lays (seen_pane pane.old) (moved_object drawing.now shift object) (seen_pane pane.new) }
{
    let mut stack = Stack::new();
    let begun = stack.begin(drawing, object, shift);
    lay_given(pane, drawing, begun);
    // A turn may open or close a block and give nothing, so that the stack alone says when it ends.
    while stack.is_busy() {
        let given = stack.turn(drawing);
        lay_given(pane, drawing, given);
    }
}

// Lays the objects of a step and repeat, moved by a shift.
fn lay_group<F: Film>(pane: &mut Pane<F>, drawing: &Drawing, objects: &[Object], shift: Shift)
    ensures { Lays (seen_pane pane.old) (moved_objects drawing.now shift objects.now) (seen_pane pane.new) }
{
    for object in objects {
        lay_moved(pane, drawing, *object, shift);
    }
}

// Lays the copy of a step and repeat in column `a` and row `b`.
fn lay_copy<F: Film>(pane: &mut Pane<F>, drawing: &Drawing, repeat: Repeat, a: u32, b: u32)
    ensures { Lays (seen_pane pane.old) (copy_at drawing.now repeat a b) (seen_pane pane.new) }
{
    if let Some(shift) = Shift::of(repeat, a, b) {
        lay_group(pane, drawing, group(drawing.records.objects, repeat), shift);
    }
}

fn lay_column<F: Film>(pane: &mut Pane<F>, drawing: &Drawing, repeat: Repeat, a: u32)
    ensures { Lays (seen_pane pane.old) (column_at drawing.now repeat a) (seen_pane pane.new) }
{
    // The number of the row says how far the copy is moved.
    for b in 0..repeat.rows {
        lay_copy(pane, drawing, repeat, a, b);
    }
}

// Lays all copies of a step and repeat.
fn lay_repeat<F: Film>(pane: &mut Pane<F>, drawing: &Drawing, repeat: Repeat)
    ensures { Lays (seen_pane pane.old) (all_copies drawing.now repeat) (seen_pane pane.new) }
{
    // The number of the column says how far its copies are moved.
    for a in 0..repeat.columns {
        lay_column(pane, drawing, repeat, a);
    }
}

// Lays what the object with the number `i` stands for.
fn lay_owned<F: Film>(pane: &mut Pane<F>, drawing: &Drawing, i: usize, object: Object)
    ensures { Lays (seen_pane pane.old) (numbered drawing.now i object) (seen_pane pane.new) }
{
    match object.owner {
        Owner::Layer => lay_moved(pane, drawing, object, Shift::none()),
        Owner::Block(_) => {}
        Owner::Repeat(repeat) => {
            if repeat.first == i {
                lay_repeat(pane, drawing, repeat);
            }
        }
    }
}

// Lays all objects of a drawing.
fn lay_drawing<F: Film>(pane: &mut Pane<F>, drawing: &Drawing)
    ensures { Lays (seen_pane pane.old) (whole_of drawing.now) (seen_pane pane.new) }
{
    for (i, object) in drawing.records.objects.iter().enumerate() {
        lay_owned(pane, drawing, i, *object);
    }
}

/// Lays the drawing with these records on the film, within the window. A window that is empty or
/// past the edge is refused.
pub fn lay<F: Film>(film: &mut F, window: Window, records: Records<'_>) -> Result<(), FilmFault>
    ensures outcome { LayOutcome (F.meaning film.old) window (laid_objects (map seen_aperture records.entry.apertures.now) (map seen_object records.entry.objects.now) (map seen_piece records.entry.pieces.now)) result (F.meaning film.new) }
    ensures beside { F.beside film.new ≡ F.beside film.old }
{
    // the test stands here: a `Result` that holds a pane is not covered by the check
    if !film.numbers().has(window) {
        return Err(FilmFault::Window);
    }
    let drawing = Drawing::new(records);
    lay_drawing(&mut Pane::new(film, window), &drawing);
    Ok(())
}
