// A row's runs as bitmap bytes.
ghost use Rattle.std.specs.Prelude.{◌≡◌, ℕ, ◌/◌, ◌<◌, length, slice_index};
ghost use Rattle.bits.specs.Bits.{bit_of};
ghost use Rattle.runs.specs.Rows.{in_row};

use crate::run::Run;
use bits::fill_bits;

// Makes the bits of the runs dark and all others clear.
pub(crate) fn pack_runs(row: &[Run], out: &mut [u8])
    ensures bits { (n : ℕ) → n / 8 < length out.old → bit_of out.new n ≡ in_row row.now n }
    ensures fit { (k : ℕ) → slice_index out.new k < 256 }
{
    out.fill(0);
    for x in row {
        fill_bits(out, x.first as usize, x.end as usize, true);
    }
}
