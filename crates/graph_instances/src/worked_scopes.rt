//! The laws of scopes at small graphs: each is the contract of a function that does nothing.
ghost use Rattle.graph_instances.specs.WorkedScopes.{InnerBodyKeepsItsPart, NestedLoopsAreAScope, OuterBodyIsAScope, LastNodeHasOneScope, InnerHeadHasOneChain, TwoWaysAreFirstEntries};

/// The inner of two nested loops is a part of the graph of its nodes.
pub fn inner_body_keeps_its_part()
    ensures { InnerBodyKeepsItsPart }
{}

/// All nodes of two nested loops are the scope of no heads.
pub fn nested_loops_are_a_scope()
    ensures { NestedLoopsAreAScope }
{}

/// The nodes of two nested loops but the outer head are the scope below it.
pub fn outer_body_is_a_scope()
    ensures { OuterBodyIsAScope }
{}

/// The last node of two nested loops is in the scope of no other two heads.
pub fn last_node_has_one_scope()
    ensures { LastNodeHasOneScope }
{}

/// The outer of two nested heads alone is round the inner.
pub fn inner_head_has_one_chain()
    ensures { InnerHeadHasOneChain }
{}

/// A loop that is entered at two nodes: these are the first entries, and there is no nest.
pub fn two_ways_are_first_entries()
    ensures { TwoWaysAreFirstEntries }
{}
