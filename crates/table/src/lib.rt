// A table of records over slots that the caller lends.
//
// The records stand in the front of the slots, in the order in which they were appended. A table
// takes as many as there are slots, or as its limit says, whichever is fewer; one more is refused
// and alters nothing. Slots past the records are never touched, so at the end the lender's slots
// hold the records and then what stood there before.
//
// It is generic in the record and proved once: apertures, objects and contour pieces each have one.
// specs/Tables.antt has what a table holds.
#![tactic(auto)]

ghost use Rattle.std.specs.Prelude.{◌≤◌, length};

mod methods;

// No record more finds a place.
#[derive(Clone, Copy, PartialEq, Eq, Debug)]
pub struct Full;

// Fixed memory: the caller lends the slots, so that no heap is asked for; the first `len` of them hold the records.
#[derive(Drop)]
pub struct Table<'a, T> {
    slots: &'a mut [T],
    limit: usize,
    len: usize,
    ghost within: { len ≤ length slots.now },
    ghost few: { len ≤ limit },
}
