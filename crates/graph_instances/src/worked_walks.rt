//! The laws of walks at two nested loops: each is the contract of a function that does nothing.
ghost use Rattle.graph_instances.specs.WorkedWalks.{RoundTheOtherWay, LastNodeIsAnEnd, LastNodeIsReachedForward, InnerWalksStay, BothHeadsHaveTurns, OtherLoopsAreLoops, ThroughAllThree, BeginningsSpendLess};

/// A walk round the outer loop, and the same turned round.
pub fn round_the_other_way()
    ensures { RoundTheOtherWay }
{}

/// From the last node no edge leads on but back to a head.
pub fn last_node_is_an_end()
    ensures { LastNodeIsAnEnd }
{}

/// The last node is reached by a walk round the inner loop, and by one that goes back to no head.
pub fn last_node_is_reached_forward()
    ensures { LastNodeIsReachedForward }
{}

/// Walks back to the inner head stay in its body.
pub fn inner_walks_stay()
    ensures { InnerWalksStay }
{}

/// Both heads have a turn.
pub fn both_heads_have_turns()
    ensures { BothHeadsHaveTurns }
{}

/// Loops that are equal to the nested loops at their heads are loops.
pub fn other_loops_are_loops()
    ensures { OtherLoopsAreLoops }
{}

/// What a walk through all three nodes has spent and costs.
pub fn through_all_three()
    ensures { ThroughAllThree }
{}

/// A walk that costs fourteen, and what its beginnings have spent.
pub fn beginnings_spend_less()
    ensures { BeginningsSpendLess }
{}
