// A record that a command draws is taken into its table.
ghost use Rattle.contour.specs.declared.pieces.Piece.{Piece as PieceRecord};
ghost use Rattle.drawing.specs.Taken.{Taking, placed_by};
ghost use Rattle.records.specs.Records.{seen_object};
ghost use Rattle.rules.specs.States as state;
ghost use Rattle.rules.specs.States.{seen_effect};
ghost use Rattle.table.specs.declared.Table.{Table as TableOf};
ghost use Rattle.std.specs.Prelude.{◌≡◌};

use crate::weighing::{laid_after, weigh};
use contour::pieces::Piece;
use records::kinds::{Aperture, Object};
use rules::rule::Rule;
use rules::state::Effect;
use table::{Full, Table};

// How many are laid once a table has answered.
fn placed(answer: Result<usize, Full>, laid: u32) -> Result<u32, Rule>
    ensures { result ≡ placed_by answer laid }
{
    answer.map(|_| laid).map_err(|_| Rule::Full)
}

// Takes an object, if there is room and it is neither too deep nor too much.
fn take_object(
    apertures: &Table<'_, Aperture>,
    objects: &mut Table<'_, Object>,
    laid: u32,
    object: Object,
) -> Result<u32, Rule>
    ensures { (pieces : TableOf PieceRecord) → Taking apertures.now objects.old pieces laid (state.object (seen_object object)) result apertures.now objects.new pieces }
{
    if objects.is_full() {
        return Err(Rule::Full);
    }
    let weight = weigh(object.outline, apertures.as_slice(), objects.as_slice());
    let after = laid_after(laid, object.owner, weight).ok_or(Rule::Weight)?;
    placed(objects.push(object), after)
}

// Takes the record of an effect into its table and answers how many objects are laid then.
pub(crate) fn take(
    apertures: &mut Table<'_, Aperture>,
    objects: &mut Table<'_, Object>,
    pieces: &mut Table<'_, Piece>,
    laid: u32,
    effect: Effect,
) -> Result<u32, Rule>
    ensures { Taking apertures.old objects.old pieces.old laid (seen_effect effect) result apertures.new objects.new pieces.new }
{
    match effect {
        Effect::Nothing => Ok(laid),
        Effect::Aperture(aperture) => placed(apertures.push(aperture), laid),
        Effect::Object(object) => take_object(apertures, objects, laid, object),
        Effect::Piece(piece) => placed(pieces.push(piece), laid),
    }
}
