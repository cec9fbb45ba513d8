// Why a call on a sheet is refused.
#[derive(Clone, Copy, PartialEq, Eq, Debug)]
pub enum SheetFault {
    // The width or the height is outside its limits.
    Limits,
    // The row is off the film.
    Off,
    // The output is too short for the whole sheet.
    Short,
    // The film is of another width, every row is written, or rows are still to come.
    Order,
}
