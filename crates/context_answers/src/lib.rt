//! What one context comes to by the bounds of the contexts that it calls: its loops, the reasons against a bound, and the
//! bound.
#![tactic(auto)]

mod answer;
mod answering;
mod calling;
mod costing;
mod gathering;
mod nesting;
mod ordering;

pub use answer::Answer;
pub use answering::answer_of;
