// How far the copies of a step and repeat are moved.
ghost use Rattle.std.specs.Prelude.{◌≡◌, ◌*◌};
ghost use Rattle.laid.specs.Shifts.{ShiftOf, moved};

use crate::kinds::Shift;
use records::kinds::Repeat;

// No copy is moved further than this, in ticks.
const FAR: u64 = 60_000;

// How far copy number `count` is moved along an axis.
fn along(count: u32, step: u64) -> Option<u32>
    ensures { result ≡ moved (count * step) }
{
    let ticks = (count as u64).checked_mul(step)?;
    // no `then_some`: it would cast before the test
    if ticks <= FAR {
        Some(ticks as u32)
    } else {
        None
    }
}

impl Shift {
    /// No shift.
    pub fn none() -> Shift
        ensures x { result.x ≡ 0 }
        ensures y { result.y ≡ 0 }
    {
        Shift { x: 0, y: 0 }
    }

    /// The shift of the copy in column `a` and row `b`; none past 60,000 ticks.
    pub fn of(repeat: Repeat, a: u32, b: u32) -> Option<Shift>
        ensures { ShiftOf (a * repeat.step_x) (b * repeat.step_y) result }
    {
        let x = along(a, repeat.step_x)?;
        let y = along(b, repeat.step_y)?;
        Some(Shift { x, y })
    }
}
