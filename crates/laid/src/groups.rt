// The objects of a step and repeat.
ghost use Rattle.std.specs.Prelude.{◌≡◌, ◌≤◌, map, length};
ghost use Rattle.laid.specs.Laid.{is_repeat, repeat_objects};
ghost use Rattle.records.specs.Records.{seen_object};
ghost use Rattle.std.specs.List.{prefix_len};

use records::kinds::{Object, Owner, Repeat};

fn repeats(object: &Object, first: usize) -> bool
    ensures { result ≡ is_repeat first object.now.owner }
{
    matches!(object.owner, Owner::Repeat(repeat) if repeat.first == first)
}

// How many objects from the first on belong to the step and repeat.
fn group_length(objects: &[Object], first: usize) -> usize
    ensures value { result ≡ prefix_len (λ o. is_repeat first o.owner) objects.now }
    ensures bound { result ≤ length objects.now }
{
    objects
        .iter()
        .take_while(|object| repeats(object, first))
        .count()
}

/// The objects of a step and repeat.
pub fn group(objects: &[Object], repeat: Repeat) -> &[Object]
    ensures { map seen_object result.now ≡ repeat_objects repeat (map seen_object objects.now) }
{
    let first = repeat.first;
    let rest = objects.get(first..).unwrap_or(&[]);
    &rest[..group_length(rest, first)]
}
