// Numbers of a file become ticks of 5 µm.
//
// A millimetre has 200 ticks and an inch 5,080. A file writes a coordinate as a whole number with
// an understood number of decimals, and a size or a repeat step as a decimal, which is held here
// in millionths. Each is brought to the nearest tick, a tie going away from zero, by whole-number
// arithmetic alone. One rounding, `scaled`, serves all three.
//
// The three functions take every number of their types, so none refuses. specs/Ticks.antt has
// what each answers, and `Nearest`, the law that the answer is the nearest tick.

#![tactic(auto)]

ghost use Rattle.std.specs.Prelude.{◌≡◌, ◌+◌, ◌*◌, ◌^◌, ◌<◌, ◌≤◌, pos, ◌*ℤ◌};
ghost use Rattle.ticks.specs.Ticks.{Nearest, NearestIsOne, SignSymmetric, divisor, factor, half_ticks, nearest, nearest_z, places_of, step_ticks, to_ticks};

// The unit of a file's numbers.
#[derive(Clone, Copy, PartialEq, Eq, Debug)]
pub enum Unit {
    Millimetre,
    Inch,
}

impl Unit {
    // How many ticks it has.
    fn ticks(self) -> u64
        ensures { (result ≡ factor self) × (result ≤ 5080) }
    {
        match self {
            Unit::Millimetre => 200,
            Unit::Inch => 5_080,
        }
    }
}

// How many of a coordinate's digits are decimals.
#[derive(Clone, Copy, PartialEq, Eq, Debug)]
pub enum Decimals {
    Four = 4,
    Five = 5,
    Six = 6,
}

impl Decimals {
    // Their number.
    pub fn places(self) -> u8
        ensures value { result ≡ places_of self }
        ensures bound { result ≤ 6 }
    {
        self as u8
    }

    // The number that one unit is written as.
    fn divisor(self) -> u64
        ensures { (result ≡ divisor self) × ((10000 ≤ result) × (result ≤ 1000000)) }
    {
        10u64.pow(self.places().into())
    }
}

// n / d to the nearest whole number, a half going up.
fn nearest_of(n: u128, d: u128) -> u128
    requires { (0 < d) × ((d ≤ 2 ^ 40) × (n ≤ 2 ^ 100)) }
    ensures { result ≡ nearest n d }
{
    (2 * n + d) / (2 * d)
}

// size × ticks / d to the nearest whole number: the one rounding of the plotter.
#[tactic(auto, using(crate::proofs::Rounding::nearest_bound, crate::proofs::Rounding::nearest_law))]
fn scaled(size: u64, unit: Unit, d: u64) -> u64
    requires { (10000 ≤ d) × (d ≤ 2000000) }
    ensures value { result ≡ nearest (size * factor unit) d }
    ensures law { Nearest (pos (size * factor unit)) d (pos result) }
    ensures bound { 20000 * result ≤ 10160 * size + 10000 }
{
    nearest_of(size as u128 * unit.ticks() as u128, d as u128) as u64
}

// The same of a number with a sign, which the answer keeps.
fn scaled_signed(v: i64, unit: Unit, d: u64) -> i64
    requires { (10000 ≤ d) × (d ≤ 2000000) }
    ensures value { result ≡ nearest_z (v *ℤ pos (factor unit)) d }
    ensures law { Nearest (v *ℤ pos (factor unit)) d result }
{
    let size = scaled(v.unsigned_abs(), unit, d) as i64;
    if v < 0 { -size } else { size }
}

// The ticks of a coordinate that a file writes as the whole number `v`.
pub fn to_ticks(v: i64, decimals: Decimals, unit: Unit) -> i64
    ensures value { result ≡ to_ticks unit decimals v }
    ensures law { Nearest (v *ℤ pos (factor unit)) (divisor decimals) result }
{
    scaled_signed(v, unit, decimals.divisor())
}

// The two below name what is scaled, and have nothing else of their own than its divisor.

// Half of a size that is given in millionths of a unit.
pub fn half_ticks(millionths: u64, unit: Unit) -> u64
    ensures value { result ≡ half_ticks unit millionths }
    ensures law { Nearest (pos (millionths * factor unit)) 2000000 (pos result) }
{
    scaled(millionths, unit, 2_000_000)
}

// A repeat step that is given in millionths of a unit.
pub fn step_ticks(millionths: u64, unit: Unit) -> u64
    ensures value { result ≡ step_ticks unit millionths }
    ensures law { Nearest (pos (millionths * factor unit)) 1000000 (pos result) }
{
    scaled(millionths, unit, 1_000_000)
}

// The laws of rounding: a number has one nearest tick, and its negative has the negative tick.
pub fn rounding_laws() -> u8
    ensures one { NearestIsOne }
    ensures sign { SignSymmetric }
{
    0
}
