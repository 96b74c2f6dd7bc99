// Shoens, and what the console keeps of them. Their copies are written by hand: what a derive writes for each field costs the prover
// more than the rest of the file.

ghost use Rattle.std.specs.Prelude.{◌≡◌, ⊤};

use kl1_model::Life;
use kl1_store::Cell;
use std::alloc::AllocError;

/// What the console keeps of a shoen that it started: the goal as started, how many of its first reports were let go, the report
/// stream after these, and the tail of the control stream.
pub struct Origin<N> {
    pub goal: Cell<N>,
    pub forgotten: u64,
    pub reports: Cell<N>,
    pub control: Cell<N>,
}

impl<N: Copy> Clone for Origin<N> {
    ghost is_clone = { λ x y. y ≡ x };

    ghost is_infallible = { λ _. ⊤ };

    fn clone(&self) -> Result<Origin<N>, AllocError> {
        Ok(*self)
    }
}

impl<N: Copy> Copy for Origin<N> {}

/// A shoen: its number in the account, from 1, and that of its parent, 0 if the console started it; the reductions that it may
/// be charged; its priorities from low to high; what is left of its control stream, and the tail of its report stream; whether it
/// lives, whether it is stopped, and whether its report stream is broken; and its origin at the console.
pub struct Shoen<N> {
    pub number: u64,
    pub parent: u64,
    pub allowance: u64,
    pub low: u64,
    pub high: u64,
    pub control: Cell<N>,
    pub tail: Cell<N>,
    pub life: Life,
    pub is_stopped: bool,
    pub is_broken: bool,
    pub origin: Option<Origin<N>>,
}

impl<N: Copy> Clone for Shoen<N> {
    ghost is_clone = { λ x y. y ≡ x };

    ghost is_infallible = { λ _. ⊤ };

    fn clone(&self) -> Result<Shoen<N>, AllocError> {
        Ok(*self)
    }
}

impl<N: Copy> Copy for Shoen<N> {}
