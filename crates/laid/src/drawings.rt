ghost use Rattle.std.specs.Prelude.{◌≡◌};

use crate::drawing::{Drawing, Records};
use records::weights::weigh_all;

impl<'a> Drawing<'a> {
    /// The drawing with these records.
    pub fn new(records: Records<'a>) -> Drawing<'a>
        ensures { result.records ≡ records.entry }
    {
        Drawing {
            records,
            weights: weigh_all(records.apertures, records.objects),
        }
    }
}
