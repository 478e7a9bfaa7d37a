//! Facts about forward walks, walks turned round and the beginnings of walks: each is the contract of a function
//! that does nothing.
ghost use Rattle.graph_laws.specs.Forward.{WalksTurn, SetsHaveEnds, ReachedAreReachedForward, WalksBackStay, HeadsHaveTurns, EqualLoopsAreLoops, SpentAddsUp, PrefixesSpendLess};

/// A walk turned round is a walk of the graph turned round.
pub fn walks_turn()
    ensures { WalksTurn }
{}

/// Where there is a nest, a finite set in which each node has a forward successor is empty.
pub fn sets_have_ends()
    ensures { SetsHaveEnds }
{}

/// What a walk from the entry reaches, a forward walk reaches.
pub fn reached_are_reached_forward()
    ensures { ReachedAreReachedForward }
{}

/// A walk from a node of a body back to its head that takes no edge into an outer head stays in the body.
pub fn walks_back_stay()
    ensures { WalksBackStay }
{}

/// Each head of a nest has a turn: a forward walk inside its body and an edge back.
pub fn heads_have_turns()
    ensures { HeadsHaveTurns }
{}

/// Loops that are equal, head by head and node by node, to loops are loops.
pub fn equal_loops_are_loops()
    ensures { EqualLoopsAreLoops }
{}

/// What a walk and what follows it have spent add up.
pub fn spent_adds_up()
    ensures { SpentAddsUp }
{}

/// The beginning of a walk that keeps the head bounds keeps them, and has spent at most what no walk exceeds.
pub fn prefixes_spend_less()
    ensures { PrefixesSpendLess }
{}
