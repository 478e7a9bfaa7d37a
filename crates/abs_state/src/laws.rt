//! Facts about states and keys: each is the contract of a function that does nothing.
ghost use Rattle.abs_state.specs.Key.{KeysAreOrdered};
ghost use Rattle.abs_state.specs.Laws.{StatesAreOrdered, StatesAreJoined, StatesRise, WritesKeepOrder, WritesStand};

/// Keys have one order, which tells all of them apart.
pub fn keys_are_ordered()
    ensures { KeysAreOrdered }
{}

/// Each state is at most itself, the order goes on from one to the next, and two states that are at most each other
/// are the same.
pub fn states_are_ordered()
    ensures { StatesAreOrdered }
{}

/// The join of two states is the least that is at least both, and its flags speak of no return address.
pub fn states_are_joined()
    ensures { StatesAreJoined }
{}

/// A state that is above another one has a greater rank, and the thresholds limit all ranks.
pub fn states_rise()
    ensures { StatesRise }
{}

/// What is written to greater states is greater.
pub fn writes_keep_order()
    ensures { WritesKeepOrder }
{}

/// What is written to a state may stand where the state may.
pub fn writes_stand()
    ensures { WritesStand }
{}
