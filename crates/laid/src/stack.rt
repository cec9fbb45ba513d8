ghost use Rattle.std.specs.Prelude.{ℕ, ◌+◌, ◌<◌, ◌≤◌};
ghost use Rattle.arrayvec.specs.ArrayVec.{array_vec_len};
ghost use Rattle.laid.specs.Frames.{level_at};

use crate::kinds::Frame;
use arrayvec::ArrayVec;

/// The blocks that are being laid, each flashed by the one before it, in the value itself: no heap is
/// asked for.
#[derive(Drop)]
pub struct Stack {
    pub(crate) frames: ArrayVec<Frame, 8>,
    ghost few: { array_vec_len frames ≤ 8 },
    ghost levels: { (k : ℕ) → k < array_vec_len frames → level_at frames.items k ≤ k + 1 },
}
