ghost use Rattle.std.specs.Prelude.{◌≡◌};
ghost use Rattle.plane.specs.Laws.{SameIsEqual};

/// The test on two points tells whether they are equal.
pub fn same_is_equal() -> u8
    ensures value { result ≡ 0 }
    ensures law { SameIsEqual }
{
    0
}
