// What an object lays, and whether that is too much.
ghost use Rattle.std.specs.Prelude.{◌≡◌, map};
ghost use Rattle.drawing.specs.Books.{adds, laid_after, too_deep, weighs};
ghost use Rattle.records.specs.Records.{seen_aperture, seen_object, seen_outline};

use records::kinds::{Aperture, Object, Outline, Owner};
use records::weights::{Weight, weigh_aperture};

// How many objects a drawing lays at most.
const MOST_LAID: u128 = 1_000_000;

// What an object with this outline lays, and how deep.
pub(crate) fn weigh(outline: Outline, apertures: &[Aperture], objects: &[Object]) -> Weight
    ensures { result ≡ weighs (map seen_aperture apertures.now) (map seen_object objects.now) (seen_outline outline) }
{
    match outline {
        Outline::Block { number, .. } => {
            weigh_aperture(number, apertures, objects).unwrap_or_default()
        }
        _ => Weight { depth: 0, laid: 1 },
    }
}

// What an object that lays so many adds to the laid objects.
fn added(owner: Owner, laid: u32) -> u128
    ensures { result ≡ adds owner laid }
{
    match owner {
        Owner::Layer => u128::from(laid),
        Owner::Block(_) => 0,
        Owner::Repeat(repeat) => {
            u128::from(repeat.columns) * u128::from(repeat.rows) * u128::from(laid)
        }
    }
}

// A block of this depth is too deep to be flashed there.
fn too_deep(owner: Owner, depth: u32) -> bool
    ensures { result ≡ too_deep owner depth }
{
    matches!(owner, Owner::Block(_)) && depth >= 8
}

// How many objects are laid with one more of this owner and weight; none where that is too deep or too
// much. (The test comes first, as a refusal does: a `then` would hide it.)
pub(crate) fn laid_after(laid: u32, owner: Owner, weight: Weight) -> Option<u32>
    ensures { result ≡ laid_after laid owner weight }
{
    let total = added(owner, weight.laid).saturating_add(u128::from(laid));
    if too_deep(owner, weight.depth) || total > MOST_LAID {
        return None;
    }
    Some(total as u32)
}
