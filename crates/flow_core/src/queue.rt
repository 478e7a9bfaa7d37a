ghost use Rattle.std.specs.Prelude.{◌≡◌, ◌≢◌, Bool, true, false, List, [], Some, IsSome, IfNone, IfSome, OnOk, OnErr, IsTrue, ◌↔◌};
ghost use Rattle.flow_system.specs.Facts.{fact_at, KeysRise};
ghost use Rattle.flow_core.specs.Queue.{IsMarked, IsLeast, KeepsRoom, with_mark};

use bt_base::Want;
use std::alloc::Global;
use std::cmp::Reverse;
use std::collections::{BTreeMap, BinaryHeap};
use std::marker::Model;

/// The pending keys.
///
/// Each key with room has a mark that says whether it is pending, and the heap has the pending ones. So
/// the least one is found in logarithmic time, and to make a key pending takes no memory.
#[derive(Drop)]
pub struct Queue<K: Ord> {
    marks: BTreeMap<K, bool>,
    heap: BinaryHeap<Reverse<K>>,
}

impl<K: Ord> Model for Queue<K> {
    ghost use Rattle.std.specs.Prelude.{List, Bool};
    ghost use Rattle.flow_core.specs.Queue.{IsQueue};

    ghost Value = { List (K × Bool) };

    ghost view = { λ q. q.marks.entries };

    ghost invariant = { λ q. IsQueue K.cmp q.marks.entries q.heap };
}

/// Whether a key has room and isn't pending.
fn waits<K: Ord + Copy>(marks: &BTreeMap<K, bool>, k: K) -> bool
    ensures waits { IsTrue result → fact_at K.cmp marks.now.entries k ≡ Some false }
    ensures other { result ≡ false → fact_at K.cmp marks.now.entries k ≡ Some false → ⊥ }
{
    match marks.get(&k) {
        None => false,
        Some(mark) => !*mark,
    }
}

/// Writes the mark of a key that has one.
fn write_mark<K: Ord + Copy>(marks: &mut BTreeMap<K, bool>, k: K, mark: bool)
    requires { IsSome (fact_at K.cmp marks.old.entries k) }
    ensures { marks.new.entries ≡ with_mark K.cmp marks.old.entries k mark }
{
    let written: Result<_, _> = marks.insert(k, mark);
    written.unwrap();
}

impl<K: Ord + Copy> Queue<K> {
    /// Nothing is pending, and no key has room.
    pub fn empty(alloc: Global) -> Queue<K>
        ensures none { result ≡ [] }
        ensures rise { KeysRise K.cmp result }
    {
        Queue {
            marks: BTreeMap::new(alloc),
            heap: BinaryHeap::new(alloc),
        }
    }

    /// The least pending key; None exactly where nothing is pending.
    pub fn least(&self) -> Option<K>
        ensures none { IfNone result ((q : K) → IsMarked K.cmp self.now q → ⊥) }
        ensures least { IfSome result (λ k. IsLeast K.cmp self.now k) }
    {
        match self.heap.peek() {
            None => None,
            Some(top) => Some(top.0),
        }
    }

    /// Makes room for a key. Want leaves the marks as they were.
    pub fn keep_room(&mut self, k: K) -> Result<(), Want>
        ensures room { OnOk result (KeepsRoom K.cmp self.old self.new k) }
        ensures unchanged { OnErr result (self.new ≡ self.old) }
    {
        if self.marks.contains_key(&k) {
            return Ok(());
        }
        let more = self.marks.len() + 1 - self.heap.len();
        self.heap.reserve(more)?;
        self.marks.insert(k, false)?;
        Ok(())
    }

    /// Makes a key pending, where it has room.
    pub fn mark(&mut self, k: K)
        ensures marked { self.new ≡ with_mark K.cmp self.old k true }
    {
        if !waits(&self.marks, k) {
            return;
        }
        let pushed: Result<_, _> = self.heap.push(Reverse(k));
        pushed.unwrap();
        write_mark(&mut self.marks, k, true);
    }

    /// Takes the least pending key out, where there is one.
    pub fn take_least(&mut self) -> Option<K>
        ensures none { IfNone result ((q : K) → IsMarked K.cmp self.old q → ⊥) }
        ensures unchanged { IfNone result (self.new ≡ self.old) }
        ensures least { IfSome result (λ k. IsLeast K.cmp self.old k) }
        ensures taken { IfSome result (λ k. self.new ≡ with_mark K.cmp self.old k false) }
    {
        match self.heap.pop() {
            None => None,
            Some(top) => {
                write_mark(&mut self.marks, top.0, false);
                Some(top.0)
            }
        }
    }
}
