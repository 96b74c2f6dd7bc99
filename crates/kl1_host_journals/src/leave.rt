// The leave to write to a connection.

ghost use Rattle.std.specs.Prelude.{◌≡◌};
ghost use Rattle.logbook.specs.Pages.{nib, may_make_home};

use crate::edition::Edition;
use crate::history::Law;
use logbook::{Pen, Seen, Start};
use std::marker::{Brand, PhantomData};

/// Which connection it is.
pub trait Connecting {
    ghost use Rattle.logbook.specs.Pages.{Book};

    ghost connection: { Book };
}

impl Connecting for Brand {
    ghost connection = { record { number = 0; log_name = 0; cells_name = 0 } };
}

/// A connection that is new, with the one leave that it will ever have.
#[derive(Drop)]
pub struct FreshConnection {
    pen: Pen,
    pub ghost right: { pen.nib ≡ nib may_make_home 0 0 },
}

impl FreshConnection {
    /// A new one.
    pub fn new() -> Self {
        let (_seen, pen, _second) = Seen::<Edition, u64, Law>::open(Start::alone(), 0, 0);
        FreshConnection { pen }
    }
}

/// The leave to write to a connection. Each connection has one, and nobody can make another: it has a right that exists once.
pub struct SendPermit<C: Connecting> {
    pen: Pen,
    of: PhantomData<C>,
    ghost right: { pen.nib ≡ nib may_make_home 0 0 },
    ghost connection_is: { pen.book ≡ C.connection },
}

/// Not derived, so that crates above don't prove the drop of each part again.
impl<C: Connecting> Drop for SendPermit<C> {
    fn drop(self) {
        let SendPermit { pen, of: _ } = self;
        let _ = pen;
    }
}

impl<C: Connecting> SendPermit<C> {
    /// The leave of a new connection.
    pub(crate) fn new(fresh: FreshConnection) -> Self
        requires { fresh.pen.book ≡ C.connection }
    {
        SendPermit {
            pen: fresh.pen,
            of: PhantomData,
        }
    }
}
