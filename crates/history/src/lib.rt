// The whole past of a film: what it shows and what was answered, however it was asked.
//
// A call is a plot of a file, a plot within a window, a blanking or a reading. A history is a list of
// calls with their answers: every pixel shows the last thing that covered it, every reading tells what
// the calls before it left, and every plot answers by the rules. Single calls are histories, and
// histories one after another are a history, so that it is of no account how calls are grouped.
// Accepted windows that together hold every pixel do what one whole plot does.
//
// specs/Coverings.antt says what the last covering is, specs/Verdicts.antt what a plot comes to,
// specs/Calls.antt what is answered, specs/History.antt and specs/Tiles.antt what a history promises,
// specs/Starts.antt what films show before it.
#![tactic(auto)]

ghost use Rattle.history.specs.History.{EveryPast};
ghost use Rattle.history.specs.Starts.{EveryStart};
ghost use Rattle.history.specs.Tiles.{EveryTiling};
ghost use Rattle.std.specs.Prelude.{◌≡◌};

/// Whatever was asked of a film, by single calls or by lists, in any order, is one history of it; and
/// wherever window plots in it hold every pixel, one whole plot may stand in their stead.
pub fn every_past() -> u8
    ensures past { EveryPast }
    ensures tiles { EveryTiling }
    ensures value { result ≡ 0 }
{
    0
}

/// What a film shows that nothing has covered: new films are clear, and a negative, a mirror or a
/// cut-out shows the film below by its rule.
pub fn every_start() -> u8
    ensures starts { EveryStart }
    ensures value { result ≡ 0 }
{
    0
}
