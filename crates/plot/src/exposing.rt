// A list of requests, one after another.
ghost use Rattle.std.specs.Prelude.{◌≡◌, ◌≤◌, [], map, length, vec_len, vec_capacity, MatchResult};
ghost use Rattle.drawing.specs.Slots.{SameSlots};
ghost use Rattle.history.specs.Calls.{slots_of};
ghost use Rattle.history.specs.History.{Served};
ghost use Rattle.history.specs.Tiles.{Exposed};
ghost use Rattle.history.specs.Verdicts.{entire};
ghost use Rattle.plot.specs.Requests.{asked, seen_answer, tables_in};

use crate::blanking::blank;
use crate::plotting::{whole, window_plot};
use crate::requests::{Answer, Request};
use drawing::reading::Slots;
use film::film::Film;
use film::window::Window;
use std::alloc::{AllocError, Global};

// One request, with the whole film's window at hand.
fn serve<F: Film>(
    film: &mut F,
    whole: Window,
    slots: &mut Slots<'_>,
    request: &Request<'_>,
) -> Answer
    requires { whole ≡ entire (F.meaning film.old).frame }
    ensures served { Served (F.meaning film.old) (tables_in slots.old) (asked (slots_of (tables_in slots.old)) request.now) (seen_answer result) (tables_in slots.new) (F.meaning film.new) }
    ensures beside { F.beside film.new ≡ F.beside film.old }
    ensures lent { SameSlots slots.old slots.new }
{
    match *request {
        Request::Plot { file } => window_plot(film, whole, file, slots).into(),
        Request::Window { window, file } => window_plot(film, window, file, slots).into(),
        Request::Blank => {
            blank(film);
            Answer::Blanked
        }
        Request::Read { column, row } => film.read(column, row).into(),
    }
}

// The requests one after another, into answers that have room for them.
fn serve_all<F: Film>(
    film: &mut F,
    slots: &mut Slots<'_>,
    requests: &[Request<'_>],
    answers: &mut Vec<Answer>,
)
    requires { (answers.old.items ≡ []) × ((vec_len answers.old ≡ 0) × (length requests.now ≤ vec_capacity answers.old)) }
    ensures exposed { Exposed (F.meaning film.old) (tables_in slots.old) (map (asked (slots_of (tables_in slots.old))) requests.now) (map seen_answer answers.new.items) (tables_in slots.new) (F.meaning film.new) }
    ensures beside { F.beside film.new ≡ F.beside film.old }
    ensures lent { SameSlots slots.old slots.new }
{
    let window = whole(film);
    // A chain would change the film and the slots in its closure, and says nothing of them afterwards.
    for request in requests {
        answers.push_reserved(serve(film, window, slots, request));
    }
}

/// Serves the requests in their order, each on the film and the slots as the ones before it left
/// them, and answers each. Every pixel then shows the last thing that covered it, every reading was
/// answered from what the requests before it left, and windows that together hold every pixel did
/// what one whole plot does. Where there is no memory for the answers, nothing is served.
pub fn expose<F: Film>(
    heap: Global,
    film: &mut F,
    slots: &mut Slots<'_>,
    requests: &[Request<'_>],
) -> Result<Vec<Answer>, AllocError>
    ensures exposed { MatchResult result (λ v. Exposed (F.meaning film.old) (tables_in slots.old) (map (asked (slots_of (tables_in slots.old))) requests.now) (map seen_answer v.items) (tables_in slots.new) (F.meaning film.new)) (λ e. (film.new ≡ film.old) × (slots.new ≡ slots.old)) }
    ensures beside { F.beside film.new ≡ F.beside film.old }
    ensures lent { SameSlots slots.old slots.new }
{
    let mut answers = Vec::with_capacity(heap, requests.len())?;
    serve_all(film, slots, requests, &mut answers);
    Ok(answers)
}
