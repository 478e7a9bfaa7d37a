use abs_state::{AbsState, Args};
use call_effects::Summary;

/// What is found at a key.
#[derive(Debug, Drop)]
pub enum Fact {
    /// What is known at a program point: the fact of a `Node` key.
    State(AbsState),
    /// The values of the arguments: the fact of a `Call` key.
    Args(Args),
    /// What a subprogram may do to its caller: the fact of a `Summary` key.
    Sum(Summary),
    /// That it is so: the fact of an `Edge` or a `Gap` key.
    Mark,
}
