// The slots of a row, of which the first `len` hold its runs.
ghost use Rattle.std.specs.Prelude.{◌≤◌, length};

use crate::run::Run;

// fixed memory: the film has the slots of a row, so that no heap is asked for
#[derive(Drop)]
pub(crate) struct Row<'a> {
    pub(crate) slots: &'a mut [Run],
    pub(crate) len: usize,
    ghost within: { len ≤ length slots.now },
}
