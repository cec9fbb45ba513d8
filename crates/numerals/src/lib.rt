// Numbers as they are written in a Gerber file.
//
// A numeral is a part of the file's text; each function answers the number that the whole text
// writes, or None where the text is no such numeral:
//   code_number        an aperture code, 10 to 999 without a leading zero
//   count_number       a repeat count, 1 to 3 digits
//   size_millionths    a size, up to 4 digits, optionally a point and up to 6 more
//   coordinate_value   a coordinate, an optional sign and at most so many digits
// A size is counted in millionths of the unit, so that every size is a whole number.
// The definitions that the promises cite stand in specs/Numerals.antt.

#![tactic(auto)]

ghost use Rattle.std.specs.Prelude.{◌≡◌, ◌+◌, ◌-◌, ◌*◌, ◌^◌, ◌<◌, ◌≤◌, length, pos, ◌≤ℤ◌, min, IfSome, OnSome};
ghost use Rattle.std.specs.Option as options;
ghost use Rattle.numerals.specs.Numerals.{digits_number, digit_run, seen_decimal, split_point, CodesLieInRange, code_number, count_number, size_millionths, coordinate_value};

// The number that `least` to `most` digits write.
#[tactic(auto, using(crate::proofs::Reading::digits))]
fn digits_number(text: &[u8], least: usize, most: usize) -> Option<u64>
    requires { most ≤ 12 }
    ensures value { result ≡ digits_number least most text.now }
    ensures bound { IfSome result (λ v. (v < 10 ^ most) × (v < 10 ^ 12)) }
    ensures within { OnSome result (length text.now ≤ most) }
{
    if text.len() < least || text.len() > most {
        return None;
    }
    // a loop and no `try_fold`, whose closure could not show that its sum fits
    let mut value: u64 = 0;
    for digit in text {
        if !digit.is_ascii_digit() {
            return None;
        }
        value = value * 10 + (*digit - b'0') as u64;
    }
    Some(value)
}

// An aperture code: 10 to 999 without a leading zero.
pub fn code_number(text: &[u8]) -> Option<u32>
    ensures { result ≡ code_number text.now }
{
    if matches!(text, [b'0', ..]) {
        return None;
    }
    digits_number(text, 2, 3).map(|n| n as u32)
}

// A repeat count: 1 to 3 digits.
pub fn count_number(text: &[u8]) -> Option<u32>
    ensures { result ≡ count_number text.now }
{
    digits_number(text, 1, 3).map(|n| n as u32)
}

// A coordinate without its sign: 1 to `longest` digits, of which 12 are the most.
fn unsigned_value(text: &[u8], longest: usize) -> Option<i64>
    ensures value { result ≡ options.option_map pos (digits_number 1 (min longest 12) text.now) }
    ensures bound { IfSome result (λ v. pos 0 ≤ℤ v) }
{
    digits_number(text, 1, longest.min(12)).map(|n| n as i64)
}

// A coordinate: an optional sign and 1 to `longest` digits, of which 12 are the most.
pub fn coordinate_value(text: &[u8], longest: usize) -> Option<i64>
    ensures { result ≡ coordinate_value longest text.now }
{
    match text {
        [b'-', digits @ ..] => unsigned_value(digits, longest).map(|n| -n),
        [b'+', digits @ ..] => unsigned_value(digits, longest),
        _ => unsigned_value(text, longest),
    }
}

// How many digits the text begins with.
fn digit_run(text: &[u8]) -> usize
    ensures value { result ≡ digit_run text.now }
    ensures bound { result ≤ length text.now }
{
    text.iter().take_while(|b| b.is_ascii_digit()).count()
}

// The digits before and after a point: two parts of one text.
#[derive(Clone, Copy)]
struct Decimal<'a> {
    whole: &'a [u8],
    part: &'a [u8],
}

fn split_point(text: &[u8]) -> Option<Decimal<'_>>
    ensures { seen_decimal result ≡ split_point text.now }
{
    let (whole, rest) = text.split_at(digit_run(text));
    match rest {
        [] => Some(Decimal { whole, part: &[] }),
        [b'.', part @ ..] => Some(Decimal { whole, part }),
        _ => None,
    }
}

fn millionths(whole: u64, part: u64, places: usize) -> u64
    requires { (whole < 10 ^ 4) × ((part < 10 ^ 6) × (places ≤ 6)) }
    ensures { result ≡ whole * 1000000 + part * 10 ^ (6 - places) }
{
    whole * 1_000_000 + part * 10u64.pow(6 - places as u32)
}

// A size in millionths: up to 4 digits, optionally a point and up to 6 more; at least one digit in all.
pub fn size_millionths(text: &[u8]) -> Option<u64>
    ensures { result ≡ size_millionths text.now }
{
    let Decimal { whole, part } = split_point(text)?;
    let places = part.len();
    if whole.is_empty() && part.is_empty() {
        return None;
    }
    let whole = digits_number(whole, 0, 4)?;
    let part = digits_number(part, 0, 6)?;
    Some(millionths(whole, part, places))
}

// The law of codes: each lies from 10 to 999.
pub fn codes_lie_in_range() -> u8
    ensures { CodesLieInRange }
{
    0
}
