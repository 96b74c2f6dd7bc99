// What becomes of one shoen.

ghost use Rattle.std.specs.Prelude.{◌≡◌, ◌+◌, min, option_map};
ghost use Rattle.kl1_model.specs.Reduction.{grown};
ghost use Rattle.kl1_shoen.specs.declared.change.Change.TheVariants.{Aborts, Breaks, Empties};
ghost use Rattle.kl1_shoen.specs.Shoens.{control_left};
ghost use Rattle.kl1_shoen.specs.Changes.{changed_by, reports_left, with_control as kept_with};

use crate::counted::is_living;
use kl1_model::Life;
use kl1_model::limits::MOST_ALLOWANCE;
use kl1_shoen_paths::{Origin, Shoen};
use kl1_store::Cell;
use kl1_text::NameValue;

/// What becomes of one shoen.
#[derive(Clone, Copy)]
pub enum Change<N> {
    /// Its report stream has this tail.
    Tail(Cell<N>),
    /// This is left of its control stream.
    Control(Cell<N>),
    /// The console keeps this tail of its control stream.
    OriginControl(Cell<N>),
    /// Its report stream is broken, and has this tail, if one is told.
    Breaks(Option<Cell<N>>),
    /// It is stopped, or not.
    Stopped(bool),
    /// It may be charged this many reductions more, up to the greatest allowance.
    Allows(u64),
    /// It has this life.
    Ends(Life),
    /// This is left of its control stream, unless the console keeps the stream.
    Leaves(Cell<N>),
    /// It is ended as aborted, if it lives, and this is left of its control stream, if it is told and the console doesn't keep the stream.
    Aborts(Option<Cell<N>>),
    /// Of its report stream so many reports were let go from the first on, and this is left.
    Forgets(u64, Cell<N>),
    /// It is let go, if it has ended: its place stays, with this in place of its streams.
    Empties(Cell<N>),
}

/// An allowance, in reductions, after it was raised: it ends at the greatest there is.
fn raised(allowance: u64, extra: u64) -> u64
    ensures { result ≡ grown allowance extra }
{
    if MOST_ALLOWANCE <= allowance {
        return allowance;
    }
    if MOST_ALLOWANCE - allowance <= extra {
        return MOST_ALLOWANCE;
    }
    allowance + extra
}

/// What the console keeps, with this tail of the control stream.
fn with_control<N: NameValue>(origin: Option<Origin<N>>, control: Cell<N>) -> Option<Origin<N>>
    ensures { result ≡ option_map (kept_with control) origin }
{
    match origin {
        None => None,
        Some(origin) => Some(Origin { control, ..origin }),
    }
}

/// What is left of the control stream of a shoen that ends: `left`, if it is told, unless the console keeps the stream.
fn control_left<N: NameValue>(shoen: Shoen<N>, left: Option<Cell<N>>) -> Cell<N>
    ensures { result ≡ control_left left shoen.origin shoen.control }
{
    match left {
        None => shoen.control,
        Some(left) => match shoen.origin {
            None => left,
            Some(_) => shoen.control,
        },
    }
}

/// A shoen after an abort: ended, if it lives.
fn aborted<N: NameValue>(shoen: Shoen<N>, left: Option<Cell<N>>) -> Shoen<N>
    ensures { result ≡ changed_by (Aborts left) shoen }
{
    if !is_living(shoen.life) {
        return shoen;
    }
    Shoen {
        life: Life::Aborted,
        control: control_left(shoen, left),
        ..shoen
    }
}

/// What the console keeps, without its first `count` reports, of which this is left.
fn without_reports<N: NameValue>(
    origin: Option<Origin<N>>,
    count: u64,
    left: Cell<N>,
) -> Option<Origin<N>>
    ensures { result ≡ option_map (reports_left count left) origin }
{
    match origin {
        None => None,
        Some(origin) => Some(Origin {
            forgotten: count,
            reports: left,
            ..origin
        }),
    }
}

/// A shoen after it was let go, if it has ended: its place, with its number, its parent and its allowance.
fn emptied<N: NameValue>(shoen: Shoen<N>, none: Cell<N>) -> Shoen<N>
    ensures { result ≡ changed_by (Empties none) shoen }
{
    if is_living(shoen.life) {
        return shoen;
    }
    Shoen {
        number: shoen.number,
        parent: shoen.parent,
        allowance: shoen.allowance,
        low: 0,
        high: 0,
        control: none,
        tail: none,
        life: Life::Forgotten,
        is_stopped: false,
        is_broken: true,
        origin: None,
    }
}

/// A shoen whose report stream is broken, with this tail, if one is told.
fn broken<N: NameValue>(shoen: Shoen<N>, tail: Option<Cell<N>>) -> Shoen<N>
    ensures { result ≡ changed_by (Breaks tail) shoen }
{
    Shoen {
        is_broken: true,
        tail: tail.unwrap_or(shoen.tail),
        ..shoen
    }
}

/// A shoen after a change.
pub fn changed<N: NameValue>(shoen: Shoen<N>, change: Change<N>) -> Shoen<N>
    ensures { result ≡ changed_by change shoen }
{
    match change {
        Change::Tail(tail) => Shoen { tail, ..shoen },
        Change::Control(control) => Shoen { control, ..shoen },
        Change::OriginControl(control) => Shoen {
            origin: with_control(shoen.origin, control),
            ..shoen
        },
        Change::Breaks(tail) => broken(shoen, tail),
        Change::Stopped(is_stopped) => Shoen {
            is_stopped,
            ..shoen
        },
        Change::Allows(extra) => Shoen {
            allowance: raised(shoen.allowance, extra),
            ..shoen
        },
        Change::Ends(life) => Shoen { life, ..shoen },
        Change::Leaves(left) => Shoen {
            control: control_left(shoen, Some(left)),
            ..shoen
        },
        Change::Aborts(left) => aborted(shoen, left),
        Change::Forgets(count, left) => Shoen {
            origin: without_reports(shoen.origin, count, left),
            ..shoen
        },
        Change::Empties(none) => emptied(shoen, none),
    }
}
