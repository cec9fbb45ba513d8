ghost use Rattle.std.specs.Prelude.{◌≡◌};
ghost use Rattle.contour.specs.Laws.{ContourRestarted, ContourMoves};

/// A closed contour that is started at another of its points covers the same points.
pub fn contour_restarted() -> u8
    ensures value { result ≡ 0 }
    ensures law { ContourRestarted }
{
    0
}

/// Moving a contour and the point together changes nothing.
pub fn contour_moves() -> u8
    ensures value { result ≡ 0 }
    ensures law { ContourMoves }
{
    0
}
