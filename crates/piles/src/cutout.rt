// A window of the film below.
use film::window::Window;

#[derive(Drop)]
pub struct CutOut<F> {
    pub(crate) below: F,
    pub(crate) window: Window,
}
