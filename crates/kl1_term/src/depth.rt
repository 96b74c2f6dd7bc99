// The depth of a term.

ghost use Rattle.std.specs.Prelude.{◌≡◌, ◌≤◌, ◌^◌};
ghost use Rattle.kl1_model.specs.Meaning.{flat, cell_depth, pair_depth};
ghost use Rattle.kl1_term.specs.Depths.{depth_of};

use kl1_text::AtomText;

/// How deep a term is, from 1, and how deep it is as what follows the elements of a list.
#[derive(Clone, Copy)]
pub(crate) struct Depth {
    pub(crate) whole: u64,
    pub(crate) rest: u64,
}

impl Depth {
    /// A depth that is the same as what follows elements.
    pub(crate) fn flat(depth: u64) -> Self
        ensures { depth_of result ≡ flat depth }
    {
        Depth {
            whole: depth,
            rest: depth,
        }
    }

    /// The depth of a structure of two arguments.
    pub(crate) fn of_pair(name: AtomText, first: Depth, second: Depth) -> Self
        requires first_low { first.whole ≤ 2 ^ 63 }
        requires second_low { second.whole ≤ 2 ^ 63 }
        requires rest_low { second.rest ≤ 2 ^ 63 }
        ensures { depth_of result ≡ pair_depth name (depth_of first) (depth_of second) }
    {
        if name.is(&AtomText::of(b".")) {
            Depth::of_cell(first, second)
        } else {
            Depth::flat(first.whole.max(second.whole) + 1)
        }
    }

    /// The depth of a list cell, of its element and what follows it.
    fn of_cell(element: Depth, behind: Depth) -> Self
        requires element_low { element.whole ≤ 2 ^ 63 }
        requires behind_low { behind.rest ≤ 2 ^ 63 }
        ensures { depth_of result ≡ cell_depth (depth_of element) (depth_of behind) }
    {
        let deepest = element.whole.max(behind.rest);
        Depth {
            whole: deepest + 1,
            rest: deepest,
        }
    }
}
