// Making a film, and piling cut-out, mirror and negative over it.
use crate::work::Work;
use bitmap::bitmap::Bitmap;
use bitmap::making::own_bytes;
use film::film::Film;
use film::grid::Grid;
use film::numbers::Numbers;
use film::refused::Refused;
use film::window::Window;
use piles::cutout::CutOut;
use piles::mirror::Mirror;
use piles::negative::Negative;
use runs::making::own_slots;
use runs::memory::RunMemory;
use runs::run::Run;
use runs::runfilm::RunFilm;
use terminal::stop::Stop;

// The film that keeps the pixels.
#[derive(Clone, Copy)]
pub(crate) enum Kind {
    Bitmap,
    Runs,
}

impl Kind {
    pub(crate) fn named(text: &str) -> Option<Kind> {
        match text {
            "bitmap" => Some(Kind::Bitmap),
            "runs" => Some(Kind::Runs),
            _ => None,
        }
    }
}

// A film as it is asked for.
#[derive(Clone, Copy)]
pub(crate) struct FilmPlan {
    pub(crate) kind: Kind,
    pub(crate) grid: Grid,
}

// What lies over the film, from below to above.
#[derive(Clone, Copy, Default)]
pub(crate) struct PilePlan {
    pub(crate) cut: Option<Window>,
    // two choices of their own, with no value beside either
    pub(crate) mirror: bool,
    pub(crate) negative: bool,
}

// Each film of a pile is of another type, so that each of these methods goes on to the next.
impl PilePlan {
    fn over_film<F: Film + Drop, M: Drop, W: Work>(
        self,
        rt: &HostRuntime,
        made: Result<F, Refused<M>>,
        work: &W,
    ) -> Result<(), Stop> {
        match made {
            Ok(film) => self.over_uncut(rt, film, work),
            Err(refused) => work.refuse(rt, "film", refused.fault),
        }
    }

    fn over_uncut<F: Film + Drop, W: Work>(
        self,
        rt: &HostRuntime,
        film: F,
        work: &W,
    ) -> Result<(), Stop> {
        let Some(window) = self.cut else {
            return self.over_cut(rt, film, work);
        };
        match CutOut::new(film, window) {
            Ok(cut) => {
                work.tell(rt, format_args!("cut {} {}", window.width, window.height))?;
                self.over_cut(rt, cut, work)
            }
            Err(refused) => work.refuse(rt, "cut", refused.fault),
        }
    }

    fn over_cut<F: Film + Drop, W: Work>(
        self,
        rt: &HostRuntime,
        film: F,
        work: &W,
    ) -> Result<(), Stop> {
        if self.mirror {
            work.tell(rt, "mirror")?;
            self.over_mirror(rt, Mirror { below: film }, work)
        } else {
            self.over_mirror(rt, film, work)
        }
    }

    fn over_mirror<F: Film + Drop, W: Work>(
        self,
        rt: &HostRuntime,
        mut film: F,
        work: &W,
    ) -> Result<(), Stop> {
        if self.negative {
            work.tell(rt, "negative")?;
            work.carry_out(rt, &mut Negative { below: film })
        } else {
            work.carry_out(rt, &mut film)
        }
    }
}

// Makes a film of these numbers, and carries out the work on the pile over it.
fn expose_made<W: Work>(
    rt: &HostRuntime,
    n: Numbers,
    film: FilmPlan,
    pile: PilePlan,
    work: &W,
) -> Result<(), Stop> {
    let FilmPlan { kind, grid } = film;
    match kind {
        Kind::Bitmap => {
            let memory = vec![in rt.alloc(); 0u8; own_bytes(n)]?;
            pile.over_film(rt, Bitmap::new(memory, grid), work)
        }
        Kind::Runs => {
            let memory = RunMemory {
                counts: vec![in rt.alloc(); 0u32; n.height as usize]?,
                slots: vec![in rt.alloc(); Run { first: 0, end: 0 }; own_slots(n)]?,
            };
            pile.over_film(rt, RunFilm::new(memory, grid), work)
        }
    }
}

// Makes the film and the pile, and carries out the work on it. Numbers outside their limits are
// refused before memory is asked for.
pub(crate) fn expose_on<W: Work>(
    rt: &HostRuntime,
    film: FilmPlan,
    pile: PilePlan,
    work: &W,
) -> Result<(), Stop> {
    // a match, since the work tells the refusal in its own words
    match Numbers::new(film.grid) {
        Ok(n) => {
            work.tell(rt, format_args!("film {} {}", n.width, n.height))?;
            expose_made(rt, n, film, pile, work)
        }
        Err(fault) => work.refuse(rt, "film", fault),
    }
}
