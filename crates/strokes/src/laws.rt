ghost use Rattle.std.specs.Prelude.{◌≡◌};
ghost use Rattle.strokes.specs.Laws.{StrokeToItselfIsDisc, StrokeReversed, ArcReversed, RingByRadius, NothingAtHalf0, StrokesMove};

/// A stroke that goes nowhere is a disc.
pub fn stroke_to_itself_is_disc() -> u8
    ensures value { result ≡ 0 }
    ensures law { StrokeToItselfIsDisc }
{
    0
}

/// A stroke and its reverse cover the same points.
pub fn stroke_reversed() -> u8
    ensures value { result ≡ 0 }
    ensures law { StrokeReversed }
{
    0
}

/// A clockwise arc covers what the counterclockwise arc from its end to its start covers.
pub fn arc_reversed() -> u8
    ensures value { result ≡ 0 }
    ensures law { ArcReversed }
{
    0
}

/// Moving a stroke and the point together changes nothing.
pub fn strokes_move() -> u8
    ensures value { result ≡ 0 }
    ensures law { StrokesMove }
{
    0
}

/// A ring of a whole radius holds what lies from the radius less the half to the radius plus the half.
pub fn ring_by_radius() -> u8
    ensures value { result ≡ 0 }
    ensures law { RingByRadius }
{
    0
}

/// A stroke of half 0 covers nothing.
pub fn nothing_at_half_0() -> u8
    ensures value { result ≡ 0 }
    ensures law { NothingAtHalf0 }
{
    0
}
