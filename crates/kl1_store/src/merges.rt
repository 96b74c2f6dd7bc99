// Structures that were found to be equal.

ghost use Rattle.std.specs.Prelude.{◌≡◌, ℕ, ◌<◌, ◌≤◌, ◌⊎◌, List, [], length, get_or, OnOk};
ghost use Rattle.kl1_model.specs.Term.{Term};
ghost use Rattle.kl1_store.specs.declared.merge.Merge.{Merge};
ghost use Rattle.kl1_store.specs.Merged.{Respects, IsFrom, AreParents, FindsRoot};

use crate::merge::Merge;
use std::alloc::{AllocError, Global};
use std::marker::Model;

/// Structures by number, in one class if they were found to be equal.
#[derive(Drop)]
pub struct Merges {
    parents: Vec<u32>,
    merges: Vec<Merge>,
}

impl Model for Merges {
    ghost use Rattle.std.specs.Prelude.{List};
    ghost use Rattle.kl1_store.specs.declared.merge.Merge.{Merge};

    ghost Value = { List Merge };

    ghost use Rattle.kl1_store.specs.Merged.{AreParents};

    ghost view = { λ s. s.merges.items };

    ghost invariant = { λ s. AreParents s.parents.items s.merges.items };
}

impl Merges {
    /// Each structure is a class of its own.
    pub fn new(alloc: Global) -> Self
        ensures { result ≡ [] }
    {
        Merges {
            parents: Vec::new(alloc),
            merges: Vec::new(alloc),
        }
    }

    /// Makes each structure a class of its own again.
    pub fn clear(&mut self)
        ensures { self.new ≡ [] }
    {
        reset(&mut self.parents, &mut self.merges);
    }

    /// A structure of a structure's class, as low as is known.
    pub fn root(&mut self, structure: u32) -> u32
        ensures merges { self.new ≡ self.old }
        ensures lower { result ≤ structure }
        ensures same { (S : ℕ → Term) → Respects S self.old → S result ≡ S structure }
    {
        find_root(&mut self.parents, structure)
    }

    /// Puts two structures that are equal in one class.
    pub fn join(&mut self, left: u32, right: u32) -> Result<(), AllocError>
        ensures { OnOk result ((S : ℕ → Term) → Respects S self.old → S left ≡ S right → Respects S self.new) }
    {
        let first = find_root(&mut self.parents, left);
        let second = find_root(&mut self.parents, right);
        if first < second {
            return link(&mut self.parents, &mut self.merges, second, first);
        }
        if second < first {
            return link(&mut self.parents, &mut self.merges, first, second);
        }
        Ok(())
    }
}

/// The structure at the end of the way; the way is shortened.
fn find_root(parents: &mut Vec<u32>, structure: u32) -> u32
    ensures { (ms : List Merge) → AreParents parents.old.items ms → FindsRoot parents.new.items ms structure result }
{
    let mut at = structure;
    while (at as usize) < parents.len() {
        let next = parents[at as usize];
        if next >= at {
            return at;
        }
        let over = parents[next as usize];
        parents[at as usize] = over;
        at = next;
    }
    at
}

/// Makes each structure lead to itself.
fn reset(parents: &mut Vec<u32>, merges: &mut Vec<Merge>)
    requires { (s : ℕ) → (get_or parents.old.items s s ≡ s) ⊎ IsFrom s merges.old.items }
    ensures parents { (s : ℕ) → get_or parents.new.items s s ≡ s }
    ensures merges { merges.new.items ≡ [] }
{
    while let Some(merge) = merges.pop() {
        let from = merge.from as usize;
        if from < parents.len() {
            parents[from] = merge.from;
        }
    }
}

/// Makes the list of parents reach a structure.
fn fill(parents: &mut Vec<u32>, structure: u32) -> Result<(), AllocError>
    ensures same { (s : ℕ) → get_or parents.new.items s s ≡ get_or parents.old.items s s }
    ensures reaches { OnOk result (structure < length parents.new.items) }
{
    while parents.len() <= structure as usize {
        let number = parents.len() as u32;
        parents.push(number)?;
    }
    Ok(())
}

/// Makes a structure lead to a lower one that is equal to it.
fn link(
    parents: &mut Vec<u32>,
    merges: &mut Vec<Merge>,
    from: u32,
    to: u32,
) -> Result<(), AllocError>
    requires lower { to < from }
    requires parents { AreParents parents.old.items merges.old.items }
    ensures parents { AreParents parents.new.items merges.new.items }
    ensures merges { OnOk result ((S : ℕ → Term) → Respects S merges.old.items → S from ≡ S to → Respects S merges.new.items) }
{
    fill(parents, from)?;
    merges.push(Merge { from, to })?;
    parents[from as usize] = to;
    Ok(())
}
