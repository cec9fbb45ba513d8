// Bits of bytes, the highest bit of a byte first: how a row of pixels lies in a bitmap.
//
// `bit_at` reads a bit, `fill_bits` makes a stretch of them dark or clear, one masked write for
// each byte. Both take any place: past the bytes every bit reads as clear, and none is written.
// Proofs about whole rows are here too: bytes whose bits are a row's pixels are the row's bytes.
#![tactic(auto)]

ghost use Rattle.std.specs.Prelude.{◌≡◌, ℕ, ◌+◌, ◌*◌, ◌/◌, ◌^◌, ◌<◌, ◌≤◌, length, take, drop, if◌then◌else◌, slice_index};
ghost use Rattle.bits.specs.Bits.{bit_in, bit_of, among};

// A bit of a byte.
fn bit_in(b: u8, i: u32) -> bool
    requires { i < 8 }
    ensures { result ≡ bit_in b i }
{
    (b >> (7 - i)) % 2 == 1
}

// Bit `n` of the bytes, clear past their end.
pub fn bit_at(bytes: &[u8], n: usize) -> bool
    ensures { result ≡ bit_of bytes.now n }
{
    bytes
        .get(n / 8)
        .is_some_and(|byte| bit_in(*byte, (n % 8) as u32))
}

// A byte whose bits from i on are 1.
fn ones_from(i: u32) -> u32
    requires { i ≤ 8 }
    ensures { result ≡ 255 / 2 ^ i }
{
    255 >> i
}

// The byte with bits i to j written.
fn with_bits(b: u8, i: u32, j: u32, dark: bool) -> u8
    requires { (i ≤ j) × (j ≤ 8) }
    ensures { (k : ℕ) → k < 8 → bit_in result k ≡ (if among i j k then dark else bit_in b k) }
{
    let mask = (ones_from(i) - ones_from(j)) as u8;
    if dark { b | mask } else { b & !mask }
}

// Makes the bits from `from` to `to`, which is not one of them, dark or clear.
pub fn fill_bits(bytes: &mut [u8], from: usize, to: usize, dark: bool)
    ensures filled { (n : ℕ) → n / 8 < length bytes.old → bit_of bytes.new n ≡ (if among from to n then dark else bit_of bytes.old n) }
    ensures before { (k : ℕ) → 8 * k ≤ from → take k bytes.new ≡ take k bytes.old }
    ensures after { (k : ℕ) → to ≤ 8 * k → drop k bytes.new ≡ drop k bytes.old }
    ensures fit { (k : ℕ) → slice_index bytes.old k < 256 → slice_index bytes.new k < 256 }
{
    if from >= to {
        return;
    }
    let last = to.div_ceil(8).min(bytes.len());
    // The index is also the byte's place, which tells its bits.
    for k in from / 8..last {
        let i = from.saturating_sub(8 * k);
        let j = (to - 8 * k).min(8);
        bytes[k] = with_bits(bytes[k], i as u32, j as u32, dark);
    }
}
