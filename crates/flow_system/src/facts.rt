ghost use Rattle.std.specs.Prelude.{◌≡◌, ◌<◌, ◌^◌, List, [], None, Some, length, IfOk, OnOk, OnErr, IsTrue, ◌↔◌};
ghost use Rattle.std.specs.Option.{option_copied};
ghost use Rattle.std.specs.Map.{keys_of, remove_entry};
ghost use Rattle.std.specs.BTreeMap.{insert_entry, is_at};
ghost use Rattle.flow_system.specs.Facts.{fact_at, KeysRise, Writes};

use bt_base::Want;
use std::alloc::Global;
use std::collections::BTreeMap;
use std::marker::Model;

/// A finite map from keys to facts.
///
/// Contracts see the list of its entries, in the keys' order. A look-up or a change takes logarithmic time.
#[derive(Drop)]
pub struct Facts<K: Ord, V> {
    entries: BTreeMap<K, V>,
}

impl<K: Ord, V> Model for Facts<K, V> {
    ghost use Rattle.std.specs.Prelude.{List};
    ghost use Rattle.flow_system.specs.Facts.{KeysRise};

    ghost Value = { List (K × V) };

    ghost view = { λ f. f.entries.entries };

    ghost invariant = { λ f. KeysRise K.cmp f.entries.entries };
}

impl<K: Ord + Copy, V> Facts<K, V> {
    /// No facts.
    pub fn empty(alloc: Global) -> Facts<K, V>
        ensures none { result ≡ [] }
        ensures rise { KeysRise K.cmp result }
    {
        Facts {
            entries: BTreeMap::new(alloc),
        }
    }

    /// The fact at a key; None exactly where the key has none.
    pub fn get(&self, k: K) -> Option<&V>
        ensures fact { option_copied result ≡ fact_at K.cmp self.now k }
        ensures rise { KeysRise K.cmp self.now }
    {
        self.entries.get(&k)
    }

    /// How many keys have a fact.
    pub fn len(&self) -> usize
        ensures len { result ≡ length self.now }
        ensures small { result < 2 ^ 63 }
        ensures rise { KeysRise K.cmp self.now }
    {
        self.entries.len()
    }

    /// Whether no key has a fact.
    pub fn is_empty(&self) -> bool
        ensures { IsTrue result ↔ (self.now ≡ []) }
    {
        self.entries.is_empty()
    }

    /// All keys, in rising order.
    pub fn keys(&self, alloc: Global) -> Result<Vec<K>, Want>
        ensures keys { IfOk result (λ keys. keys.items ≡ keys_of self.now) }
        ensures rise { KeysRise K.cmp self.now }
    {
        let keys = self.entries.keys().copied().collect(alloc)?;
        Ok(keys)
    }

    /// Writes the fact at a key, and answers the fact that was there.
    ///
    /// An existing key takes no memory. Want changes nothing.
    pub fn put(&mut self, k: K, v: V) -> Result<Option<V>, Want>
    where
        V: Drop,
        ensures old { IfOk result (λ old. old ≡ fact_at K.cmp self.old k) }
        ensures written { OnOk result (Writes K.cmp self.old self.new k (Some v)) }
        ensures entries { OnOk result (self.new ≡ insert_entry K.cmp self.old k v) }
        ensures absent { OnErr result (fact_at K.cmp self.old k ≡ None) }
        ensures unchanged { OnErr result (self.new ≡ self.old) }
        ensures rose { KeysRise K.cmp self.old }
        ensures rise { KeysRise K.cmp self.new }
    {
        match self.entries.insert(k, v) {
            Ok(old) => Ok(old),
            Err(refused) => {
                let _ = refused;
                Err(Want)
            }
        }
    }

    /// Takes a key out, and answers the fact that was there.
    pub fn remove(&mut self, k: K) -> Option<V>
        ensures old { result ≡ fact_at K.cmp self.old k }
        ensures written { Writes K.cmp self.old self.new k None }
        ensures entries { self.new ≡ remove_entry (is_at (K.cmp k)) self.old }
        ensures rise { KeysRise K.cmp self.new }
    {
        self.entries.remove(&k)
    }
}
