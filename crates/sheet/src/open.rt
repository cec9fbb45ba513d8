// A sheet that is being written. It cannot be let go: it has to be closed.
ghost use Rattle.std.specs.Prelude.{◌≡◌, ◌≤◌, true};
ghost use Rattle.sheet.specs.Sheet.{sheet_sized};

use crate::size::Size;

pub struct OpenSheet {
    pub(crate) size: Size,
    // The rows written so far.
    pub(crate) written: u32,
    ghost sized: { sheet_sized size.width size.height ≡ true },
    ghost within: { written ≤ size.height },
}
