// The places of a table, in order of number, with the queue over them.

ghost use Rattle.std.specs.Prelude.{◌≡◌, ◌+◌, ◌<◌, ◌≤◌, ℕ, true, None, [], ◌∷◌, ◌++◌, length, map, drop, MatchOption, OnOk, vec_len, vec_capacity};
ghost use Rattle.std.specs.List.{find};
ghost use Rattle.kl1_model.specs.declared.limits.TheConstants.{MONITOR_PRIORITY};
ghost use Rattle.kl1_goals.specs.Lists.{has_number};
ghost use Rattle.kl1_goals.specs.Tables.{Ascend};
ghost use Rattle.kl1_goals.specs.Slots.{numbers_of, goals_in, first_of, rank_in, level_in, emptied, looked_in, changed_at, AreLow, AreBelow, IsCut, IsPlace, IsAbsent, AreSlots, IsHeldAt, IsEmptyEnd, IsWithout};
ghost use Rattle.kl1_goals.specs.Chains.{shape_in, before_in, AreChained, HaveSameCounts};
ghost use Rattle.kl1_goals.specs.Keeping.{places_then};

use crate::begun::{Begun, note_slot};
use crate::chains::{forget_last, link_all, unlink_last};
use crate::goal::Goal;
use crate::slot::Slot;
use crate::standing::Standing;
use crate::tally::Tally;
use kl1_queue::ReadyQueue;
use kl1_text::NameValue;
use std::alloc::AllocError;

/// A table of at most this many places isn't compacted.
const FEW: usize = 32;

/// How many places have this number or a lesser one.
pub(crate) fn count_upto<N: NameValue>(slots: &Vec<Slot<N>>, number: u64) -> usize
    requires { Ascend 0 (numbers_of slots.now.items) }
    ensures { IsCut (numbers_of slots.now.items) number result }
{
    let mut low = 0;
    let mut high = slots.len();
    while low < high {
        let middle = low + (high - low) / 2;
        if slots[middle].goal.number <= number {
            low = middle + 1;
        } else {
            high = middle;
        }
    }
    low
}

/// The place of `number`, by a search.
fn searched_place<N: NameValue>(slots: &Vec<Slot<N>>, number: u64) -> Option<usize>
    requires { Ascend 0 (numbers_of slots.now.items) }
    ensures { MatchOption result (IsAbsent (numbers_of slots.now.items) number) (λ k. IsPlace (numbers_of slots.now.items) number k) }
{
    let count = count_upto(slots, number);
    if count == 0 {
        return None;
    }
    let place = count - 1;
    if slots[place].goal.number == number {
        Some(place)
    } else {
        None
    }
}

/// The place of `number`, which may be where one was found last.
#[inline(never)]
fn far_place<N: NameValue>(slots: &Vec<Slot<N>>, seen: usize, number: u64) -> Option<usize>
    requires { Ascend 0 (numbers_of slots.now.items) }
    ensures { MatchOption result (IsAbsent (numbers_of slots.now.items) number) (λ k. IsPlace (numbers_of slots.now.items) number k) }
{
    if seen < slots.len() && slots[seen].goal.number == number {
        return Some(seen);
    }
    searched_place(slots, number)
}

/// The place of `number`: found by one look if none is left out between it and the last.
#[inline]
fn place_of<N: NameValue>(slots: &Vec<Slot<N>>, seen: usize, number: u64) -> Option<usize>
    requires { Ascend 0 (numbers_of slots.now.items) }
    ensures { MatchOption result (IsAbsent (numbers_of slots.now.items) number) (λ k. IsPlace (numbers_of slots.now.items) number k) }
{
    let count = slots.len();
    if count == 0 {
        return None;
    }
    let last = slots[count - 1].goal.number;
    if last < number {
        return None;
    }
    let back = last - number;
    if back < count as u64 {
        let guess = count - 1 - back as usize;
        if slots[guess].goal.number == number {
            return Some(guess);
        }
    }
    far_place(slots, seen, number)
}

/// The place of a goal that is there, which may be where one was found last.
#[inline]
pub(crate) fn held_place<N: NameValue>(
    slots: &Vec<Slot<N>>,
    seen: usize,
    number: u64,
) -> Option<usize>
    requires { Ascend 0 (numbers_of slots.now.items) }
    ensures { MatchOption result (find (has_number number) (goals_in slots.now.items) ≡ None) (λ k. (s : Slot N) × IsHeldAt slots.now.items number k s) }
{
    match place_of(slots, seen, number) {
        None => None,
        Some(place) => {
            if slots[place].is_held {
                Some(place)
            } else {
                None
            }
        }
    }
}

/// The first goal from a place on.
pub(crate) fn first_held<N: NameValue>(slots: &Vec<Slot<N>>, from: usize) -> Option<Goal<N>>
    ensures { result ≡ first_of (goals_in (drop from slots.now.items)) }
{
    let mut place = from;
    while place < slots.len() {
        let slot = slots[place];
        if slot.is_held {
            return Some(slot.goal);
        }
        place += 1;
    }
    None
}

/// Puts a goal after all others.
#[inline]
pub(crate) fn append<N: NameValue>(
    slots: &mut Vec<Slot<N>>,
    empty: usize,
    queue: &mut ReadyQueue,
    goal: &Goal<N>,
    before: u32,
)
    requires slots { AreSlots slots.old.items empty queue.old.ranks }
    requires number { AreBelow goal.now.number (numbers_of slots.old.items) }
    requires priority { goal.now.priority ≤ MONITOR_PRIORITY }
    requires room { vec_len slots.old < vec_capacity slots.old }
    requires queue_room { 0 < queue.old.room }
    ensures slots { AreSlots slots.new.items empty queue.new.ranks }
    ensures place { slots.new.items ≡ slots.old.items ++ record { goal = goal.now; is_held = true; before = before } ∷ [] }
    ensures goals { goals_in slots.new.items ≡ goals_in slots.old.items ++ goal.now ∷ [] }
{
    slots.push_reserved(Slot {
        goal: *goal,
        is_held: true,
        before,
    });
    queue.extend(goal.ready_priority());
}

/// Empties the place of a goal.
#[inline]
pub(crate) fn bury<N: NameValue>(
    slots: &mut Vec<Slot<N>>,
    empty: &mut usize,
    queue: &mut ReadyQueue,
    place: usize,
)
    requires slots { AreSlots slots.old.items empty.old queue.old.ranks }
    requires place { (s : Slot N) × IsHeldAt slots.old.items s.goal.number place s }
    ensures slots { AreSlots slots.new.items empty.new queue.new.ranks }
    ensures emptied { slots.new.items ≡ changed_at emptied place slots.old.items }
    ensures goals { (s : Slot N) → IsHeldAt slots.old.items s.goal.number place s → IsWithout s.goal (goals_in slots.old.items) (goals_in slots.new.items) }
{
    slots[place].is_held = false;
    queue.remove(place);
    *empty += 1;
}

/// Notes what stands at the place of a goal; then the goal may step, or may not, and has this standing.
pub(crate) fn look_at<N: NameValue>(
    begun: &mut Begun<N>,
    slots: &mut Vec<Slot<N>>,
    empty: usize,
    queue: &mut ReadyQueue,
    place: usize,
    standing: Standing,
    is_enabled: bool,
) -> Result<(), AllocError>
    requires slots { AreSlots slots.old.items empty queue.old.ranks }
    requires place { place < length slots.old.items }
    ensures slots { AreSlots slots.new.items empty queue.new.ranks }
    ensures changed { OnOk result (slots.new.items ≡ changed_at (looked_in standing is_enabled) place slots.old.items) }
    ensures shapes { map shape_in slots.new.items ≡ map shape_in slots.old.items }
    ensures links { map before_in slots.new.items ≡ map before_in slots.old.items }
    ensures was { places_then begun.new slots.new.items ≡ places_then begun.old slots.old.items }
    ensures rest { begun.new ≡ record begun.old { slots = begun.new.slots } }
{
    note_slot(begun, slots, place)?;
    let slot = &mut slots[place];
    slot.goal.standing = standing;
    slot.goal.is_enabled = is_enabled;
    slot.rank(queue, place);
    Ok(())
}

/// Ranks places anew.
pub(crate) fn rank_all<N: NameValue>(slots: &Vec<Slot<N>>, queue: &mut ReadyQueue)
    requires room { length slots.now.items ≤ queue.old.room + length queue.old.ranks }
    requires low { AreLow (map level_in slots.now.items) }
    ensures ranks { queue.new.ranks ≡ map rank_in slots.now.items }
{
    queue.clear();
    for place in 0..slots.len() {
        queue.extend(slots[place].priority());
    }
}

/// Drops the empty places.
#[inline(never)]
pub(crate) fn compact<N: NameValue>(
    slots: &mut Vec<Slot<N>>,
    empty: &mut usize,
    queue: &mut ReadyQueue,
    tallies: &mut Vec<Tally>,
)
    requires slots { AreSlots slots.old.items empty.old queue.old.ranks }
    requires chained { AreChained slots.old.items tallies.old.items }
    ensures slots { AreSlots slots.new.items empty.new queue.new.ranks }
    ensures chained { AreChained slots.new.items tallies.new.items }
    ensures counts { HaveSameCounts tallies.old.items tallies.new.items }
    ensures goals { goals_in slots.new.items ≡ goals_in slots.old.items }
    ensures below { (n : ℕ) → AreBelow n (numbers_of slots.old.items) → AreBelow n (numbers_of slots.new.items) }
{
    forget_last(slots, tallies);
    slots.retain(|slot| slot.is_held);
    *empty = 0;
    link_all(slots, tallies);
    rank_all(slots, queue);
}

/// Whether there is a last place and it is empty.
#[inline]
fn ends_empty<N: NameValue>(slots: &Vec<Slot<N>>) -> bool
    ensures { result ≡ true → IsEmptyEnd slots.now.items }
{
    let count = slots.len();
    if count == 0 {
        return false;
    }
    !slots[count - 1].is_held
}

/// Drops the empty places at the end.
#[inline(always)]
fn trim<N: NameValue>(
    slots: &mut Vec<Slot<N>>,
    empty: &mut usize,
    queue: &mut ReadyQueue,
    tallies: &mut Vec<Tally>,
)
    requires slots { AreSlots slots.old.items empty.old queue.old.ranks }
    requires chained { AreChained slots.old.items tallies.old.items }
    ensures slots { AreSlots slots.new.items empty.new queue.new.ranks }
    ensures chained { AreChained slots.new.items tallies.new.items }
    ensures counts { HaveSameCounts tallies.old.items tallies.new.items }
    ensures goals { goals_in slots.new.items ≡ goals_in slots.old.items }
    ensures below { (n : ℕ) → AreBelow n (numbers_of slots.old.items) → AreBelow n (numbers_of slots.new.items) }
{
    while ends_empty(slots) {
        unlink_last(slots, tallies);
        slots.pop();
        queue.drop_last();
        *empty -= 1;
    }
}

/// Drops the empty places at the end, and all of them if they are more than three quarters: then each that is dropped costs a
/// third of a place that is moved.
#[inline(always)]
pub(crate) fn tidy<N: NameValue>(
    slots: &mut Vec<Slot<N>>,
    empty: &mut usize,
    queue: &mut ReadyQueue,
    tallies: &mut Vec<Tally>,
)
    requires slots { AreSlots slots.old.items empty.old queue.old.ranks }
    requires chained { AreChained slots.old.items tallies.old.items }
    ensures slots { AreSlots slots.new.items empty.new queue.new.ranks }
    ensures chained { AreChained slots.new.items tallies.new.items }
    ensures counts { HaveSameCounts tallies.old.items tallies.new.items }
    ensures goals { goals_in slots.new.items ≡ goals_in slots.old.items }
    ensures below { (n : ℕ) → AreBelow n (numbers_of slots.old.items) → AreBelow n (numbers_of slots.new.items) }
{
    trim(slots, empty, queue, tallies);
    let count = slots.len();
    if count <= FEW {
        return;
    }
    if *empty > count - count / 4 {
        compact(slots, empty, queue, tallies);
    }
}
