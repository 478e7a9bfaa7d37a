//! The loops of a context with what bounds them: the counters of their heads, or what is asserted there.
#![tactic(auto)]

mod heads;

pub use heads::loop_outcomes;
