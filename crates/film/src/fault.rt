// Why a call on a film is refused.
#[derive(Clone, Copy, PartialEq, Eq, Debug)]
pub enum FilmFault {
    // The numbers are outside their limits.
    Limits,
    // The memory is too short for the film.
    Memory,
    // The window is empty or goes past the film's edge.
    Window,
    // The pixel, span or row is off the film.
    Off,
    // The output is too short.
    Short,
}
