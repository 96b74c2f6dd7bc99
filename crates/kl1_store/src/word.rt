// Cells as words: the two low bits tell the kind.

ghost use Rattle.std.specs.Prelude.{◌≡◌, ◌<◌, ◌≤◌, length, vec_capacity};
ghost use Rattle.kl1_store.specs.Inside.{most};
ghost use Rattle.kl1_store.specs.Words.{unpacked, IsPacked, IsSmall, IsWordOf, Packs};

use crate::cell::Cell;

/// Half of the integers that a word can hold.
const HALF: i64 = 1 << 61;

/// The cell that a word stands for.
#[inline(always)]
pub(crate) fn unpack<N: Copy>(word: u64, wide: &Vec<Cell<N>>) -> Cell<N>
    requires { IsPacked (length wide.now.items) word }
    ensures { result ≡ unpacked wide.now.items word }
{
    let value = word / 4;
    let kind = word % 4;
    if kind == 0 {
        return Cell::Variable(value as u32);
    }
    if kind == 1 {
        return Cell::Structure(value as u32);
    }
    if kind == 3 {
        return Cell::Integer(value as i64 - HALF);
    }
    wide[value as usize]
}

/// The word of an integer that a word can hold.
#[inline(always)]
fn small(integer: i64) -> u64
    requires { IsSmall integer }
    ensures { IsWordOf integer result }
{
    4 * ((integer + HALF) as u64) + 3
}

/// Puts a cell into the list beside the words: the word that stands for it.
fn put_beside<N: Copy>(cell: Cell<N>, wide: &mut Vec<Cell<N>>) -> u64
    requires room { length wide.old.items < vec_capacity wide.old }
    requires few { length wide.old.items ≤ most }
    ensures packs { Packs wide.old.items wide.new.items cell result }
    ensures capacity { vec_capacity wide.new ≡ vec_capacity wide.old }
{
    let place = wide.len() as u64;
    wide.push_reserved(cell);
    4 * place + 2
}

/// The word of a cell. A cell that no word can hold is put into the list beside the words, which has room for it.
#[inline]
pub(crate) fn pack<N: Copy>(cell: Cell<N>, wide: &mut Vec<Cell<N>>) -> u64
    requires room { length wide.old.items < vec_capacity wide.old }
    requires few { length wide.old.items ≤ most }
    ensures packs { Packs wide.old.items wide.new.items cell result }
    ensures capacity { vec_capacity wide.new ≡ vec_capacity wide.old }
{
    match cell {
        Cell::Variable(variable) => 4 * (variable as u64),
        Cell::Structure(structure) => 4 * (structure as u64) + 1,
        Cell::Integer(integer) => {
            if -HALF <= integer && integer < HALF {
                return small(integer);
            }
            put_beside(cell, wide)
        }
        Cell::Atom(_) => put_beside(cell, wide),
    }
}
