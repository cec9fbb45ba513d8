// The memory of a run film.
use crate::run::Run;

// A count for each row and, in a list of their own, slots for the runs of every row.
// Two lists of fixed length: the caller hands them over, so that no heap is asked for.
#[derive(Clone, Drop)]
pub struct RunMemory {
    pub counts: Vec<u32>,
    pub slots: Vec<Run>,
}
