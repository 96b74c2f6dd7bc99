// The next edition of keys, by what the file of accounts says now.

ghost use Rattle.std.specs.Prelude.{◌≡◌, [], not, is_some, IfOk, option_map};
ghost use Rattle.kl1_session.specs.Views.{entry_view, entries_view};
ghost use Rattle.kl1_host.specs.NextKeys.{nobody, named, is_there, next_at, is_rekeyed, is_removed, IsTakenOver, IsAdded, IsAddedIf, IsNext};

use kl1_session::Key;
use std::alloc::{AllocError, Global};

/// The next edition of keys, and what is other in it, by the numbers of places.
#[derive(Drop)]
pub struct NextKeys {
    pub keys: Vec<Key>,
    /// Those that come.
    pub added: Vec<usize>,
    /// Those that have another key.
    pub rekeyed: Vec<usize>,
    /// Those that leave.
    pub removed: Vec<usize>,
    /// How many have no place.
    pub left_out: usize,
}

/// The key of a name among others.
fn named<'k>(keys: &'k [Key], name: &[u8]) -> Option<&'k Key>
    ensures { option_map (λ k. entry_view k.now) result ≡ named (entries_view keys.now) name.now }
{
    let mut rest = keys;
    while let [first, others @ ..] = rest {
        if first.name.as_slice() == name {
            return Some(first);
        }
        rest = others;
    }
    None
}

/// A copy of a key.
fn copy_of(alloc: Global, key: &Key) -> Result<Key, AllocError>
    ensures { IfOk result (λ copy. entry_view copy ≡ entry_view key.now) }
{
    Ok(Key {
        name: Vec::from_slice(alloc, key.name.as_slice())?,
        key: Vec::from_slice(alloc, key.key.as_slice())?,
    })
}

/// What stands at the place of an account that was removed.
fn nobody(alloc: Global) -> Key
    ensures { entry_view result ≡ nobody }
{
    Key {
        name: Vec::new(alloc),
        key: Vec::new(alloc),
    }
}

/// Whether an account stands at a place.
fn is_there(key: &Key) -> bool
    ensures { result ≡ is_there (entry_view key.now) }
{
    !key.name.is_empty()
}

/// What stands at a place next.
fn next_at(alloc: Global, key: &Key, wanted: &[Key]) -> Result<Key, AllocError>
    ensures { IfOk result (λ next. entry_view next ≡ next_at (entries_view wanted.now) (entry_view key.now)) }
{
    if !is_there(key) {
        return Ok(nobody(alloc));
    }
    match named(wanted, key.name.as_slice()) {
        Some(found) => copy_of(alloc, found),
        None => Ok(nobody(alloc)),
    }
}

/// Whether the account of a place is to have another key.
fn is_rekeyed(key: &Key, wanted: &[Key]) -> bool
    ensures { result ≡ is_rekeyed (entries_view wanted.now) (entry_view key.now) }
{
    match named(wanted, key.name.as_slice()) {
        Some(found) => is_there(key) && found.key.as_slice() != key.key.as_slice(),
        None => false,
    }
}

/// Whether the account of a place is to leave.
fn is_removed(key: &Key, wanted: &[Key]) -> bool
    ensures { result ≡ is_removed (entries_view wanted.now) (entry_view key.now) }
{
    is_there(key) && named(wanted, key.name.as_slice()).is_none()
}

/// Whether who is wanted stands at no place yet.
fn is_newcomer(now: &[Key], key: &Key) -> bool
    ensures { result ≡ not (is_some (named (entries_view now.now) key.now.name.items)) }
{
    named(now, key.name.as_slice()).is_none()
}

impl NextKeys {
    /// None yet.
    fn new(alloc: Global) -> Self
        ensures { (result.keys.items ≡ []) × (result.added.items ≡ []) × (result.rekeyed.items ≡ []) × (result.removed.items ≡ []) }
    {
        NextKeys {
            keys: Vec::new(alloc),
            added: Vec::new(alloc),
            rekeyed: Vec::new(alloc),
            removed: Vec::new(alloc),
            left_out: 0,
        }
    }

    /// Takes over what stands at the next place.
    fn take_over(&mut self, alloc: Global, key: &Key, wanted: &[Key]) -> Result<(), AllocError>
        ensures { IfOk result (λ _. IsTakenOver (entries_view wanted.now) (entry_view key.now) self.old self.new) }
    {
        let place = self.keys.len();
        if is_rekeyed(key, wanted) {
            self.rekeyed.push(place)?;
        }
        if is_removed(key, wanted) {
            self.removed.push(place)?;
        }
        self.keys.push(next_at(alloc, key, wanted)?)?;
        Ok(())
    }

    /// Takes in one that comes, if there is a place for it.
    fn add(&mut self, alloc: Global, key: &Key, places: usize) -> Result<(), AllocError>
        ensures { IfOk result (λ _. IsAdded places (entry_view key.now) self.old self.new) }
    {
        let place = self.keys.len();
        if place >= places {
            self.left_out = self.left_out.saturating_add(1);
            return Ok(());
        }
        self.added.push(place)?;
        self.keys.push(copy_of(alloc, key)?)?;
        Ok(())
    }

    /// Takes in one that is wanted, if it comes.
    fn add_if(
        &mut self,
        alloc: Global,
        comes: bool,
        key: &Key,
        places: usize,
    ) -> Result<(), AllocError>
        ensures { IfOk result (λ _. IsAddedIf comes places (entry_view key.now) self.old self.new) }
    {
        if comes {
            self.add(alloc, key, places)
        } else {
            Ok(())
        }
    }
}

/// The next edition after `now`, if accounts with these keys are wanted and there are so many places.
pub fn next_keys(
    alloc: Global,
    now: &[Key],
    wanted: &[Key],
    places: usize,
) -> Result<NextKeys, AllocError>
    ensures { IfOk result (IsNext (entries_view now.now) (entries_view wanted.now) places) }
{
    let mut next = NextKeys::new(alloc);
    for key in now {
        next.take_over(alloc, key, wanted)?;
    }
    for key in wanted {
        next.add_if(alloc, is_newcomer(now, key), key, places)?;
    }
    Ok(next)
}
