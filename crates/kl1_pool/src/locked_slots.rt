// Places to which no account has come, each under its lock.

ghost use Rattle.std.specs.Prelude.{◌≡◌, ◌<◌, ◌++◌, ◌∷◌, [], IfOk, All, vec_len};
ghost use Rattle.kl1_pool_tickets.specs.Parts.{IsNewBook};
ghost use Rattle.kl1_pool.specs.Parts.{AreFreshSeats, AreUnshown};

use crate::locked_slot::{Vacancy, Vacant};
use kl1_atoms::AtomSeat;
use kl1_journal::Rules;
use kl1_journal_stamps::ShownHistory;
use kl1_tally::BookSeat;
use std::alloc::{AllocError, Global};
use std::sync::Mutex;

/// The last of a list, which is taken off.
fn last_of<T>(list: &mut Vec<T>) -> T
    requires { 0 < vec_len list.old }
    ensures { list.old.items ≡ list.new.items ++ result ∷ [] }
{
    let Some(last) = list.pop() else {
        unreachable!()
    };
    last
}

/// A place for each book, in the order of the books, with the seat and the history at its place, whose account keeps to these rules. It is
/// generic in what places are made as since those that are made already are dropped if memory is refused, and a drop is proved for any type that
/// can be dropped.
pub(crate) fn places_of<C: Vacant>(
    alloc: Global,
    rules: Rules,
    mut seats: Vec<AtomSeat>,
    mut books: Vec<BookSeat>,
    mut shown: Vec<ShownHistory>,
) -> Result<Vec<Mutex<C>>, AllocError>
    requires seats { AreFreshSeats C.table C.seats C.keeps_to seats.items }
    requires books { All (IsNewBook C.tally) books.items }
    requires rules { rules ≡ C.keeps_to }
    requires shown { AreUnshown C.histories books.items shown.items }
    requires count { (vec_len seats ≡ vec_len books) × (vec_len shown ≡ vec_len books) }
    ensures { IfOk result (λ places. vec_len places ≡ vec_len books) }
{
    let mut places = Vec::with_capacity(alloc, books.len())?;
    while let Some(book) = books.pop() {
        let seat = last_of(&mut seats);
        let history = last_of(&mut shown);
        let vacancy = Vacancy {
            rules,
            seat,
            shown: history,
        };
        places.push_reserved(Mutex::new(C::vacant(book, vacancy)));
    }
    places.as_mut_slice().reverse();
    Ok(places)
}

/// Drops places.
pub(crate) fn drop_all<C: Vacant>(places: Vec<Mutex<C>>) {
    drop(places);
}
