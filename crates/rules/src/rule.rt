// The rule that a command of a good form breaks.

/// Which rule it is.
#[derive(Clone, Copy, PartialEq, Eq, Debug)]
pub enum Rule {
    // it may not stand there, or has I or J in G01 mode
    Misplaced,
    // a number is out of its range
    Range,
    // a code is defined twice, or selected before it is defined and closed
    Code,
    // a point, aperture, mode or G75 is wanted and absent
    Absent,
    // a stroke with another aperture than a circle
    NotRound,
    // an arc whose ends do not fit its centre
    Arc,
    // a straight stroke that is too long
    Long,
    // a contour that is not begun or not closed
    Contour,
    // a table is full
    Full,
    // blocks too deep, or too many objects laid
    Weight,
}
