ghost use Rattle.laid.specs.Laws.{PlacingsCompose};
ghost use Rattle.std.specs.Prelude.{◌≡◌};

/// A point in a block is placed by the block first and then by what stands around it.
pub fn placings_compose() -> u8
    ensures value { result ≡ 0 }
    ensures law { PlacingsCompose }
{
    0
}
