// What a film was to be made of, handed back with the reason.
use crate::fault::FilmFault;

#[derive(Drop)]
pub struct Refused<T> {
    pub given: T,
    pub fault: FilmFault,
}
