ghost use Rattle.std.specs.Prelude.{◌≡◌};
ghost use Rattle.shapes.specs.Laws.{EvenObroundIsCircle, FlashesMove};

/// An obround of equal halves is a circle.
pub fn even_obround_is_circle() -> u8
    ensures value { result ≡ 0 }
    ensures law { EvenObroundIsCircle }
{
    0
}

/// Moving a flash and the point together changes nothing.
pub fn flashes_move() -> u8
    ensures value { result ≡ 0 }
    ensures law { FlashesMove }
{
    0
}
