// How piles compare.
ghost use Rattle.std.specs.Prelude.{◌≡◌};
ghost use Rattle.piles.specs.Laws.{MirrorTwice, NegativeTwice, CutTwice, Exchange, SameCentres};

pub fn pile_laws_hold() -> u8
    ensures mirror_of_mirror { MirrorTwice }
    ensures negative_of_negative { NegativeTwice }
    ensures mirror_and_negative_exchange { Exchange }
    ensures cut_out_of_cut_out { CutTwice }
    ensures cut_out_keeps_centres { SameCentres }
    ensures value { result ≡ 0 }
{
    0
}
