ghost use Rattle.std.specs.Prelude.{◌≡◌, ◌*ℤ◌};

pub(crate) fn wide_product(a: i64, b: i64) -> i128
    ensures { result ≡ a *ℤ b }
{
    a as i128 * b as i128
}
