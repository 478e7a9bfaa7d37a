ghost use Rattle.std.specs.Prelude.{◌≡◌, List, [], None, Some, IfOk, OnOk, OnErr, IsTrue, IsSome, Contains};
ghost use Rattle.std.specs.List.{flat_map};
ghost use Rattle.std.specs.Map.{keys_of};
ghost use Rattle.flow_system.specs.Facts.{fact_at, KeysRise};
ghost use Rattle.flow_system.specs.Laws.{OrdersKeys};
ghost use Rattle.flow_core.specs.Readers.{readers_of};
ghost use Rattle.flow_core.specs.Staged.{written};
ghost use Rattle.flow_core.specs.Writing.{IsMoving, IsReady, KeepsMarks, KeepsReaders, MarksAll, TakesBack};

use crate::queue::Queue;
use crate::readers::Readers;
use bt_base::Want;
use flow_system::{Facts, System};
use std::alloc::Global;

/// Lists a key as a reader of each key that it reads.
fn list_reader<S: System>(
    system: &S,
    alloc: Global,
    readers: &mut Readers<S::Key>,
    k: S::Key,
) -> Result<(), Want>
    ensures keeps { KeepsReaders S.Key.cmp (S.rules system.now).reads readers.old readers.new }
    ensures lists { OnOk result ((r : S.Key) → Contains ((S.rules system.now).reads k) r → Contains (readers_of S.Key.cmp readers.new r) k) }
{
    let reads = system.reads(alloc, k)?;
    for r in &reads {
        readers.add(alloc, *r, k)?;
    }
    Ok(())
}

/// Makes room for a key that isn't among the facts, and lists it where it reads.
fn prepare_key<S: System>(
    system: &S,
    alloc: Global,
    facts: &Facts<S::Key, S::Val>,
    queue: &mut Queue<S::Key>,
    readers: &mut Readers<S::Key>,
    k: S::Key,
) -> Result<(), Want>
    requires { KeysRise S.Key.cmp queue.old }
    ensures keeps { KeepsReaders S.Key.cmp (S.rules system.now).reads readers.old readers.new }
    ensures marks { KeepsMarks S.Key.cmp queue.old queue.new }
    ensures ready { OnOk result (IsReady S.Key.cmp (S.rules system.now).reads facts.now queue.new readers.new k) }
{
    if facts.get(k).is_some() {
        return Ok(());
    }
    queue.keep_room(k)?;
    list_reader(system, alloc, readers, k)
}

/// Prepares each key that isn't among the facts.
pub fn prepare<S: System>(
    system: &S,
    alloc: Global,
    facts: &Facts<S::Key, S::Val>,
    queue: &mut Queue<S::Key>,
    readers: &mut Readers<S::Key>,
    keys: &[S::Key],
) -> Result<(), Want>
    requires { KeysRise S.Key.cmp queue.old }
    ensures keeps { KeepsReaders S.Key.cmp (S.rules system.now).reads readers.old readers.new }
    ensures marks { KeepsMarks S.Key.cmp queue.old queue.new }
    ensures ready { OnOk result ((k : S.Key) → Contains keys.now k → IsReady S.Key.cmp (S.rules system.now).reads facts.now queue.new readers.new k) }
{
    for k in keys {
        prepare_key(system, alloc, facts, queue, readers, *k)?;
    }
    Ok(())
}

/// The readers of each of the keys.
pub fn gather<K: Ord + Copy>(
    alloc: Global,
    readers: &Readers<K>,
    keys: &[K],
) -> Result<Vec<K>, Want>
    ensures { IfOk result (λ woken. woken.items ≡ flat_map (λ k. readers_of K.cmp readers.now k) keys.now) }
{
    let mut woken = Vec::new(alloc);
    for k in keys {
        woken.extend_from_slice(readers.of(*k))?;
    }
    Ok(woken)
}

/// Moves the risen fact of a key that isn't among the facts to them.
fn move_fresh<K: Ord + Copy, V: Drop>(
    facts: &mut Facts<K, V>,
    risen: &mut Facts<K, V>,
    k: K,
) -> Result<(), Want>
    requires { OrdersKeys K.cmp }
    ensures moves { IsMoving K.cmp facts.old risen.old facts.new risen.new }
    ensures whole { OnOk result ((q : K) → written K.cmp facts.new risen.new q ≡ written K.cmp facts.old risen.old q) }
    ensures there { OnOk result (IsSome (fact_at K.cmp risen.new k) → IsSome (fact_at K.cmp facts.new k)) }
{
    if facts.get(k).is_some() {
        return Ok(());
    }
    match risen.remove(k) {
        None => Ok(()),
        Some(fact) => {
            facts.put(k, fact)?;
            Ok(())
        }
    }
}

/// Takes out again what was moved: the keys of the list that aren't risen any more.
fn take_back<K: Ord + Copy, V: Drop>(facts: &mut Facts<K, V>, risen: &Facts<K, V>, keys: &[K])
    requires order { OrdersKeys K.cmp }
    requires rise { KeysRise K.cmp facts.old }
    ensures back { TakesBack K.cmp facts.old risen.now keys.now facts.new }
    ensures rise { KeysRise K.cmp facts.new }
{
    for k in keys {
        if risen.get(*k).is_none() {
            facts.remove(*k);
        }
    }
}

/// Moves the risen facts of new keys to the facts. Want leaves the facts as they were.
pub fn move_all_fresh<K: Ord + Copy, V: Drop>(
    facts: &mut Facts<K, V>,
    risen: &mut Facts<K, V>,
    keys: &[K],
) -> Result<(), Want>
    requires order { OrdersKeys K.cmp }
    requires rise { KeysRise K.cmp facts.old }
    requires rise_risen { KeysRise K.cmp risen.old }
    requires listed { keys.now ≡ keys_of risen.old }
    ensures unchanged { OnErr result (facts.new ≡ facts.old) }
    ensures rise { KeysRise K.cmp facts.new }
    ensures whole { OnOk result ((q : K) → written K.cmp facts.new risen.new q ≡ written K.cmp facts.old risen.old q) }
    ensures there { OnOk result ((q : K) → IsSome (fact_at K.cmp risen.new q) → IsSome (fact_at K.cmp facts.new q)) }
    ensures still { OnOk result ((q : K) → IsSome (fact_at K.cmp risen.new q) → Contains keys.now q) }
{
    for k in keys {
        match move_fresh(facts, risen, *k) {
            Ok(()) => {}
            Err(want) => {
                take_back(facts, risen, keys);
                return Err(want);
            }
        }
    }
    Ok(())
}

/// Writes the risen fact of a key over the fact that is there.
fn replace<K: Ord + Copy, V: Drop>(facts: &mut Facts<K, V>, risen: &mut Facts<K, V>, k: K)
    requires order { OrdersKeys K.cmp }
    requires rise { KeysRise K.cmp facts.old }
    requires there { (q : K) → IsSome (fact_at K.cmp risen.old q) → IsSome (fact_at K.cmp facts.old q) }
    ensures rise { KeysRise K.cmp facts.new }
    ensures whole { (q : K) → written K.cmp facts.new risen.new q ≡ written K.cmp facts.old risen.old q }
    ensures there { (q : K) → IsSome (fact_at K.cmp risen.new q) → IsSome (fact_at K.cmp facts.new q) }
    ensures less { (q : K) → IsSome (fact_at K.cmp risen.new q) → IsSome (fact_at K.cmp risen.old q) }
    ensures gone { fact_at K.cmp risen.new k ≡ None }
{
    match risen.remove(k) {
        None => {}
        Some(fact) => {
            let put: Result<_, _> = facts.put(k, fact);
            put.unwrap();
        }
    }
}

/// Writes the risen facts over those that are there.
pub fn replace_all<K: Ord + Copy, V: Drop>(
    facts: &mut Facts<K, V>,
    risen: &mut Facts<K, V>,
    keys: &[K],
)
    requires order { OrdersKeys K.cmp }
    requires rise { KeysRise K.cmp facts.old }
    requires there { (q : K) → IsSome (fact_at K.cmp risen.old q) → IsSome (fact_at K.cmp facts.old q) }
    requires listed { (q : K) → IsSome (fact_at K.cmp risen.old q) → Contains keys.now q }
    ensures whole { (q : K) → fact_at K.cmp facts.new q ≡ written K.cmp facts.old risen.old q }
    ensures rise { KeysRise K.cmp facts.new }
{
    for k in keys {
        replace(facts, risen, *k);
    }
}

/// Makes those of the keys pending that are among the facts.
pub fn mark_all<K: Ord + Copy, V>(queue: &mut Queue<K>, facts: &Facts<K, V>, keys: &[K])
    requires order { OrdersKeys K.cmp }
    requires rise { KeysRise K.cmp queue.old }
    ensures { MarksAll K.cmp facts.now keys.now queue.old queue.new }
{
    for k in keys {
        if facts.get(*k).is_some() {
            queue.mark(*k);
        }
    }
}
