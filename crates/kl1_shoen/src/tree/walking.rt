// Paths.

ghost use Rattle.std.specs.Prelude.{◌≡◌, length, OnOk};
ghost use Rattle.std.specs.List.{list_any};
ghost use Rattle.kl1_shoen.specs.Shoens.{path_in, is_living_child_of, AreBelow};

use crate::tree::ShoenTree;
use kl1_text::NameValue;
use std::alloc::AllocError;

impl<N: NameValue> ShoenTree<N> {
    /// How deep a shoen is: 1 if the console started it, and 0 at the number 0.
    pub fn depth(&self, number: u64) -> u64
        ensures value { result ≡ length (path_in self.now.shoens number) }
    {
        let mut depth = 0;
        let mut at = number;
        'path: loop {
            let up = self.parent(at);
            if at == 0 {
                return depth;
            }
            depth += 1;
            at = up;
        }
    }

    /// Whether a shoen has a child that lives, in constant time.
    pub fn has_living_child(&self, number: u64) -> bool
        ensures { result ≡ list_any (is_living_child_of number) self.now.shoens }
    {
        self.shoens.has_living_child(number)
    }

    /// Writes the numbers of shoen `number` and of all below it, each once.
    pub fn below(&self, number: u64, out: &mut Vec<u64>) -> Result<(), AllocError>
        ensures { OnOk result (AreBelow self.now.shoens number out.new.items) }
    {
        // Only for the proof: parents have lower numbers.
        let _lower = self.len();
        self.links.below(self.shoens.items(), number, out)
    }
}
