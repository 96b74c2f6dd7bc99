// Names that become others in what came since a mark.

ghost use Rattle.std.specs.Prelude.{◌≡◌, ◌≤◌, length, vec_capacity};
ghost use Rattle.kl1_store.specs.Renames.{node_renamed, mapped_from, renamed_since};

use crate::cells::Cells;
use crate::mark::Mark;
use crate::node::Node;
use crate::renaming::Renaming;
use kl1_text::NameValue;

/// Puts what each name becomes in its place in the structures from `first` on; their arguments stay.
fn rename_nodes<N: NameValue, R: Renaming<N>>(nodes: &mut Vec<Node<N>>, first: usize, names: &R)
    ensures count { length nodes.new.items ≡ length nodes.old.items }
    ensures items { nodes.new.items ≡ mapped_from (node_renamed (R.becomes names.now)) first nodes.old.items }
    ensures capacity { vec_capacity nodes.new ≡ vec_capacity nodes.old }
{
    for place in first..nodes.len() {
        let node = nodes[place];
        nodes[place] = Node {
            name: names.renamed(node.name),
            start: node.start,
            count: node.count,
        };
    }
}

impl<N: NameValue> Cells<N> {
    /// Puts what each name becomes in its place in the structures and the bindings that came since a mark. It takes no memory.
    pub fn rename<R: Renaming<N>>(&mut self, mark: Mark, names: &R)
        requires structures { mark.structures ≤ length self.old.held.structures }
        requires bindings { mark.bindings ≤ length self.old.held.bindings }
        ensures held { self.new.held ≡ renamed_since (R.becomes names.now) mark self.old.held }
        ensures room { self.new.room ≡ self.old.room }
    {
        self.bindings.rename(mark.bindings, names);
        let first = mark.structures as usize;
        if first < self.nodes.len() {
            let start = self.nodes[first].start as usize;
            self.arguments.rename(start, names);
            rename_nodes(&mut self.nodes, first, names);
        }
    }
}
