ghost use Rattle.std.specs.Prelude.{◌≡◌, ℕ, ◌+◌, ◌≤◌, min, map, length, slice_index_or};
ghost use Rattle.records.specs.Records.{seen_aperture, seen_figure, seen_object, seen_outline};
ghost use Rattle.records.specs.Weights.{capped, deepest, depth_by, laid_by, laid_in, none, or_nothing, owned_from, weighed, weight_told, weights};

use crate::kinds::{Aperture, Figure, Object, Outline, Owner};

/// How deep blocks are nested in a block, itself counted, and how many objects a flash of it lays.
#[derive(Clone, Copy, PartialEq, Eq, Debug, Default)]
pub struct Weight {
    pub depth: u32,
    pub laid: u32,
}

// One more than the limits: from there on a weight only says that it passes them.
const TOO_DEEP: u32 = 9;

const TOO_MANY: u32 = 1_000_001;

// How many apertures a drawing has at most. An array of so many weights is fixed memory: no heap is asked for.
const MOST: usize = 128;

// The objects of a block that begin at `first`.
fn part(objects: &[Object], number: usize, first: usize) -> &[Object]
    ensures { map seen_object result.now ≡ owned_from number first (map seen_object objects.now) }
{
    let rest = &objects[first.min(objects.len())..];
    let count = rest
        .iter()
        .take_while(|object| object.owner == Owner::Block(number))
        .count();
    &rest[..count]
}

// What an object weighs: a flash of a block as the block, any other is laid once. (Among earlier weights;
// drawing asks the same of whole tables.)
fn weight_by(outline: Outline, done: &[Weight]) -> Weight
    ensures depth { result.depth ≡ depth_by done.now (seen_outline outline) }
    ensures laid { result.laid ≡ laid_by done.now (seen_outline outline) }
{
    match outline {
        Outline::Block { number, .. } => weight_in(done, number),
        _ => Weight { depth: 0, laid: 1 },
    }
}

// The weight of an aperture among those that are done.
fn weight_in(done: &[Weight], number: usize) -> Weight
    ensures { result ≡ slice_index_or done.now number none }
{
    done.get(number).copied().unwrap_or_default()
}

// Depth and laid count of a block with these objects, from the weights of the earlier apertures.
fn weight_of(part: &[Object], done: &[Weight]) -> Weight
    ensures depth { result.depth ≡ min 9 (1 + deepest done.now (map seen_object part.now)) }
    ensures laid { result.laid ≡ min 1000001 (laid_in done.now (map seen_object part.now)) }
{
    let mut depth: u32 = 0;
    let mut laid: u32 = 0;
    for object in part {
        let weight = weight_by(object.outline, done);
        depth = depth.max(weight.depth);
        laid = laid.saturating_add(weight.laid).min(TOO_MANY);
    }
    Weight {
        depth: depth.saturating_add(1).min(TOO_DEEP),
        laid,
    }
}

// The weight of an aperture, from those of the earlier ones: only a block has one.
fn weigh_one(aperture: Aperture, number: usize, objects: &[Object], done: &[Weight]) -> Weight
    ensures depth { result.depth ≡ min 9 (weighed done.now (map seen_object objects.now) number (seen_figure aperture.figure)).depth }
    ensures laid { result.laid ≡ min 1000001 (weighed done.now (map seen_object objects.now) number (seen_figure aperture.figure)).laid }
{
    match aperture.figure {
        Figure::Block { first } => weight_of(part(objects, number, first), done),
        _ => Weight::default(),
    }
}

// The weights of the first `k` apertures, each from the earlier ones, and nothing behind them.
// Here and below two slices, and no struct of both, which each call would only make and take apart.
fn weigh_first(k: usize, apertures: &[Aperture], objects: &[Object]) -> [Weight; MOST]
    requires { (k ≤ length apertures.now) × (k ≤ 128) }
    ensures { (j : ℕ) → slice_index_or result j none ≡ slice_index_or (map capped (weights (map seen_aperture apertures.now) (map seen_object objects.now) k)) j none }
{
    let mut out = [Weight::default(); MOST];
    for (number, aperture) in apertures[..k].iter().enumerate() {
        out[number] = weigh_one(*aperture, number, objects, &out[..number]);
    }
    out
}

/// The weight of an aperture, depth at most 9 and laid count at most 1,000,001; none where there is
/// no such aperture among the first 128.
pub fn weigh_aperture(number: usize, apertures: &[Aperture], objects: &[Object]) -> Option<Weight>
    ensures { result ≡ weight_told (length apertures.now) (map seen_aperture apertures.now) (map seen_object objects.now) number }
{
    // the test comes first, as a refusal does: a `then` would hide it
    if number >= apertures.len() || number >= MOST {
        return None;
    }
    Some(weigh_first(number + 1, apertures, objects)[number])
}

/// The weights of all apertures, each as `weigh_aperture` tells it, and nothing where it tells none.
pub fn weigh_all(apertures: &[Aperture], objects: &[Object]) -> [Weight; MOST]
    ensures { (k : ℕ) → slice_index_or result k none ≡ or_nothing (weight_told (length apertures.now) (map seen_aperture apertures.now) (map seen_object objects.now) k) }
{
    weigh_first(apertures.len().min(MOST), apertures, objects)
}
