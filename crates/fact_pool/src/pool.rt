ghost use Rattle.std.specs.Prelude.{◌≡◌};
ghost use Rattle.flow_system.specs.Laws.{IsLawful};
ghost use Rattle.flow_core.specs.Core.{IsGood};
ghost use Rattle.fact_pool.specs.Held.{IsHeld};

use crate::held::Held;
use flow_core::Core;
use flow_system::{Name, System};
use std::sync::{Mutex, MutexGuard, Wait};
use std::thread::Threads;

/// A core that several workers extend under a lock.
///
/// Of the core at the moment of locking only its type is known: that it is good for the named system and has the named
/// limit. A guard that is made in the head of a `match` lives to the match's end; whoever locks again in an arm waits for
/// ever, so bind what a call under the lock answers first.
pub struct Pool<S: System, N: Name<S::Key, S::Val>> {
    held: Mutex<Held<S, N>>,
}

impl<S: System, N: Name<S::Key, S::Val>> Drop for Pool<S, N> {
    fn drop(self) {
        let Pool { held: _ } = self;
    }
}

impl<S: System, N: Name<S::Key, S::Val>> Pool<S, N> {
    /// A pool over a core that is good for the named system, which is lawful, and has the named limit.
    pub fn new(core: Core<S>) -> Pool<S, N>
        requires lawful { IsLawful S.Key.cmp N.rules }
        requires good { IsGood S.Key.cmp N.rules core }
        requires limit { core.limit ≡ N.limit }
    {
        Pool {
            held: Mutex::new(Held::new(core)),
        }
    }

    /// Waits for the lock, and holds the core until the guard is let go.
    pub fn lock<R: Threads + Wait + Sync>(&self, rt: &R) -> MutexGuard<'_, Held<S, N>> {
        self.held.lock(rt)
    }

    /// The core, once no one shares the pool: it is good for the named system and has the named limit.
    pub fn core(self) -> Core<S>
        ensures { IsHeld S.Key.cmp N.rules N.limit result }
    {
        let Pool { held } = self;
        held.into_inner().core()
    }
}
