// What closing a sheet answers.
use crate::fault::SheetFault;
use crate::open::OpenSheet;

// A sheet whose rows are all written. It takes no more: to write again, open another.
#[derive(Clone, Copy, PartialEq, Eq, Debug)]
pub struct ClosedSheet {
    // The bytes that the sheet takes in its output.
    pub length: usize,
}

// A close that was refused, with the sheet, which is still open.
pub struct Unclosed {
    pub sheet: OpenSheet,
    pub fault: SheetFault,
}
