// The tree of ranks: each inner node holds the greater of its two children, and node 1 is the top.

ghost use Rattle.std.specs.Prelude.{◌≡◌, ◌+◌, ◌*◌, ◌^◌, ◌<◌, max, length, get_or, set, drop};
ghost use Rattle.kl1_queue.specs.Trees.{IsTree, Leads};

/// Writes a rank at a leaf and sets right what is above it.
#[inline]
pub(crate) fn set_leaf(best: &mut Vec<u16>, half: usize, place: usize, rank: u16)
    requires tree { IsTree half best.old.items }
    requires place { place < half }
    ensures tree { IsTree half best.new.items }
    ensures leaves { drop half best.new.items ≡ set (drop half best.old.items) place rank }
{
    let was = best[half + place];
    if was < rank {
        lift(best, half, place, rank);
        return;
    }
    if rank < was {
        climb(best, half, place, rank);
    }
}

/// Writes a rank at a leaf in which a lesser one stood, and walks up from it as far as lesser ones stand: none of what is beside
/// the way is looked at.
fn lift(best: &mut Vec<u16>, half: usize, place: usize, rank: u16)
    requires tree { IsTree half best.old.items }
    requires place { place < half }
    requires greater { get_or best.old.items (half + place) 0 < rank }
    ensures tree { IsTree half best.new.items }
    ensures leaves { drop half best.new.items ≡ set (drop half best.old.items) place rank }
{
    let mut node = half + place;
    best[node] = rank;
    while node > 1 {
        let parent = node / 2;
        if best[parent] >= rank {
            return;
        }
        best[parent] = rank;
        node = parent;
    }
}

/// Writes a rank at a leaf and walks up from it as far as something changes.
fn climb(best: &mut Vec<u16>, half: usize, place: usize, rank: u16)
    requires tree { IsTree half best.old.items }
    requires place { place < half }
    ensures tree { IsTree half best.new.items }
    ensures leaves { drop half best.new.items ≡ set (drop half best.old.items) place rank }
{
    let mut node = half + place;
    best[node] = rank;
    while node > 1 {
        let parent = node / 2;
        let greater = greater_child(best, parent);
        if best[parent] == greater {
            return;
        }
        best[parent] = greater;
        node = parent;
    }
}

/// The greater of a node's two children.
fn greater_child(best: &Vec<u16>, node: usize) -> u16
    requires { 2 * node + 1 < length best.now.items }
    ensures { result ≡ max (get_or best.now.items (2 * node) 0) (get_or best.now.items (2 * node + 1) 0) }
{
    let left = best[2 * node];
    let right = best[2 * node + 1];
    left.max(right)
}

/// The first leaf of the greatest rank, if some leaf has one.
pub(crate) fn first_leaf(best: &Vec<u16>, depth: usize) -> usize
    requires tree { IsTree (2 ^ depth) best.now.items }
    ensures { Leads best.now.items (2 ^ depth) result }
{
    let top = best[1];
    let mut node = 1;
    for _ in 0..depth {
        node = 2 * node;
        if best[node] < top {
            node += 1;
        }
    }
    node
}
