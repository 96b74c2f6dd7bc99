// Cells that are put after those of a list.

ghost use Rattle.std.specs.Prelude.{◌≡◌, ◌+◌, ◌≤◌, ◌++◌, length, reverse, vec_capacity};
ghost use Rattle.kl1_store.specs.Tops.{firsts, others};

use crate::cell::Cell;
use crate::words::Words;
use kl1_text::NameValue;

/// Puts cells after those of a list with room for them.
pub(crate) fn put_all<N: NameValue>(list: &mut Words<N>, cells: &[Cell<N>])
    requires room { length cells.now ≤ list.old.room }
    ensures cells { list.new.cells ≡ list.old.cells ++ cells.now }
    ensures room { list.new.room + length cells.now ≡ list.old.room }
{
    let mut rest = cells;
    while let [first, more @ ..] = rest {
        list.push(*first);
        rest = more;
    }
}

/// Moves `count` cells from the top of a stack to the end of a list with room for them; if none is left, `missing` stands
/// for it.
pub(crate) fn move_top<N: NameValue>(
    stack: &mut Vec<Cell<N>>,
    list: &mut Words<N>,
    missing: Cell<N>,
    count: usize,
)
    requires room { count ≤ list.old.room }
    ensures moved { list.new.cells ≡ list.old.cells ++ firsts missing count (reverse stack.old.items) }
    ensures left { reverse stack.new.items ≡ others count (reverse stack.old.items) }
    ensures more { length list.new.cells ≡ length list.old.cells + count }
    ensures list_room { list.new.room + count ≡ list.old.room }
    ensures height { length stack.new.items ≤ length stack.old.items }
    ensures stack_capacity { vec_capacity stack.new ≡ vec_capacity stack.old }
{
    if count > stack.len() {
        return move_or_fill(stack, list, missing, count);
    }
    let from = stack.len() - count;
    put_reversed(list, &stack[from..]);
    stack.truncate(from);
}

/// Puts cells after those of a list with room for them, the last of them first.
fn put_reversed<N: NameValue>(list: &mut Words<N>, cells: &[Cell<N>])
    requires room { length cells.now ≤ list.old.room }
    ensures cells { list.new.cells ≡ list.old.cells ++ reverse cells.now }
    ensures room { list.new.room + length cells.now ≡ list.old.room }
{
    let mut left = cells.len();
    while 0 < left {
        left -= 1;
        list.push(cells[left]);
    }
}

/// Moves `count` cells as `move_top` does, one after another.
fn move_or_fill<N: NameValue>(
    stack: &mut Vec<Cell<N>>,
    list: &mut Words<N>,
    missing: Cell<N>,
    count: usize,
)
    requires room { count ≤ list.old.room }
    ensures moved { list.new.cells ≡ list.old.cells ++ firsts missing count (reverse stack.old.items) }
    ensures left { reverse stack.new.items ≡ others count (reverse stack.old.items) }
    ensures more { length list.new.cells ≡ length list.old.cells + count }
    ensures list_room { list.new.room + count ≡ list.old.room }
    ensures height { length stack.new.items ≤ length stack.old.items }
    ensures stack_capacity { vec_capacity stack.new ≡ vec_capacity stack.old }
{
    let mut left = count;
    while 0 < left {
        let cell = stack.pop().unwrap_or(missing);
        list.push(cell);
        left -= 1;
    }
}
