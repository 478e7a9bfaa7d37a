//! A core under a lock. The lock's type names a system and a limit on nodes, and keeps that the core is good for
//! that system; so each hold of the lock is one event of the core, and needs no fact of an earlier hold.
#![tactic(auto)]

mod held;
mod pool;

pub use held::Held;
pub use pool::Pool;
