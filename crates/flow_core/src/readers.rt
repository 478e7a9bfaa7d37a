ghost use Rattle.std.specs.Prelude.{◌≡◌, List, [], ◌∷◌, ◌++◌, OnOk, OnErr, IfOk, IsTrue, IsSome, true, false};
ghost use Rattle.flow_system.specs.Facts.{fact_at, KeysRise};
ghost use Rattle.flow_core.specs.Readers.{readers_of, lists_of, AddsReader, SameReaders, list_or_none};

use bt_base::Want;
use std::alloc::Global;
use std::collections::BTreeMap;
use std::marker::Model;

/// For each key the keys that read it, so that a fact that grows wakes only those.
#[derive(Drop)]
pub struct Readers<K: Ord> {
    lists: BTreeMap<K, Vec<K>>,
}

impl<K: Ord> Model for Readers<K> {
    ghost use Rattle.std.specs.Prelude.{List};
    ghost use Rattle.flow_core.specs.Readers.{lists_of};

    ghost Value = { List (K × List K) };

    ghost view = { λ r. lists_of r.lists.entries };
}

/// Lists a reader at a key that has a list, or makes the list.
fn add_to<K: Ord + Copy>(
    lists: &mut BTreeMap<K, Vec<K>>,
    alloc: Global,
    k: K,
    reader: K,
) -> Result<(), Want>
    ensures added { OnOk result (AddsReader K.cmp (lists_of lists.old.entries) (lists_of lists.new.entries) k reader) }
    ensures same { OnErr result (SameReaders K.cmp (lists_of lists.old.entries) (lists_of lists.new.entries)) }
{
    if let Some(list) = lists.get_mut(&k) {
        list.push(reader)?;
        return Ok(());
    }
    let mut list = Vec::new(alloc);
    list.push(reader)?;
    lists.insert(k, list)?;
    Ok(())
}

impl<K: Ord + Copy> Readers<K> {
    /// No key has a reader.
    pub fn empty(alloc: Global) -> Readers<K>
        ensures { result ≡ [] }
    {
        Readers {
            lists: BTreeMap::new(alloc),
        }
    }

    /// The keys that read a key.
    pub fn of(&self, k: K) -> &[K]
        ensures { result.now ≡ readers_of K.cmp self.now k }
    {
        match self.lists.get(&k) {
            None => &[],
            Some(list) => list.as_slice(),
        }
    }

    /// Lists a reader of a key. Want leaves each key's readers as they were.
    pub fn add(&mut self, alloc: Global, k: K, reader: K) -> Result<(), Want>
        ensures added { OnOk result (AddsReader K.cmp self.old self.new k reader) }
        ensures same { OnErr result (SameReaders K.cmp self.old self.new) }
    {
        add_to(&mut self.lists, alloc, k, reader)
    }
}
