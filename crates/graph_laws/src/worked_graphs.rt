//! Small graphs that meet the definitions: each is the contract of a function that does nothing.
ghost use Rattle.graph_laws.specs.Worked.{LoopOfTwoCostsSix, NestedLoopsHaveANest, NestedLoopsCostFourteen, CollapsedWalkCostsFourteen, InnerLoopCostsSix, TwoWaysHaveNoNest, CounterMeetsItsBound};
ghost use Rattle.graph_laws.specs.WorkedNests.{NestedLoopsAreLoops, InnerLoopIsALoop, NestedLoopsUnwind, InnerLoopIsAPart, NestedLoopsHaveOneNest, InnerBodyIsEntered, LoopOfTwoHasLabels};
ghost use Rattle.graph_laws.specs.WorkedSums.{FallingCounterMeetsItsBound, NestedSumsRise, NestedSumsFall};

/// A loop of two nodes whose head is passed at most three times, with an exit from its head, costs six where each
/// node costs one.
pub fn loop_of_two_costs_six()
    ensures { LoopOfTwoCostsSix }
{}

/// Two nested loops have a nest.
pub fn nested_loops_have_a_nest()
    ensures { NestedLoopsHaveANest }
{}

/// Two nested loops, with two passes of the outer head and three of the inner: fourteen.
pub fn nested_loops_cost_fourteen()
    ensures { NestedLoopsCostFourteen }
{}

/// The inner loop's own cost: six.
pub fn inner_loop_costs_six()
    ensures { InnerLoopCostsSix }
{}

/// A loop that is entered at two nodes has no nest.
pub fn two_ways_have_no_nest()
    ensures { TwoWaysHaveNoNest }
{}

/// A counter from 0 to 3 that rises by one in each turn, along a walk that passes the head four times.
pub fn counter_meets_its_bound()
    ensures { CounterMeetsItsBound }
{}

/// The collapsed walk of the nested loops stands for a walk of cost fourteen.
pub fn collapsed_walk_costs_fourteen()
    ensures { CollapsedWalkCostsFourteen }
{}

/// A counter from 3 to 0 that falls by one in each turn, along a walk that passes the head four times.
pub fn falling_counter_meets_its_bound()
    ensures { FallingCounterMeetsItsBound }
{}

/// Labels of sums of the nested loops, whose outer head alone adds to the cell, show that each turn rises by one.
pub fn nested_sums_rise()
    ensures { NestedSumsRise }
{}

/// The same where the outer head takes from the cell.
pub fn nested_sums_fall()
    ensures { NestedSumsFall }
{}

/// The nodes of the nested loops are reached, and they are natural loops.
pub fn nested_loops_are_loops()
    ensures { NestedLoopsAreLoops }
{}

/// Inside the inner body the inner loop alone is left, entered at its head.
pub fn inner_loop_is_a_loop()
    ensures { InnerLoopIsALoop }
{}

/// A walk round the inner loop goes back to its head, and without such edges no walk comes back.
pub fn nested_loops_unwind()
    ensures { NestedLoopsUnwind }
{}

/// The inner loop is a part below the outer head, and the outer head is in no part there.
pub fn inner_loop_is_a_part()
    ensures { InnerLoopIsAPart }
{}

/// The nested loops have no other nest.
pub fn nested_loops_have_one_nest()
    ensures { NestedLoopsHaveOneNest }
{}

/// The inner body is entered, and at its head alone.
pub fn inner_body_is_entered()
    ensures { InnerBodyIsEntered }
{}

/// The loop of two nodes has labels that ask enough, each what some edge asks, and they say six.
pub fn loop_of_two_has_labels()
    ensures { LoopOfTwoHasLabels }
{}
