// What the calls on a sheet come to, one after another.
ghost use Rattle.std.specs.Prelude.{◌≡◌};
ghost use Rattle.sheet.specs.Reading.{RowsSoFar, RowsReadBack};

// Rows written in turn stand one after another, and all rows of a film read back as the film.
pub fn rows_written_in_turn() -> u8
    ensures so_far { RowsSoFar }
    ensures read_back { RowsReadBack }
    ensures value { result ≡ 0 }
{
    0
}
