//! Facts about labels: each is the contract of a function that does nothing.
ghost use Rattle.graph_laws.specs.Collapsed.{CollapsedWalksExpand};
ghost use Rattle.graph_laws.specs.Labels.{LabelsBoundWalks, ChosenLabelsAreAttained, ChosenLabelsAreGreatest, LoopsInsideAreLoops, OwnLabelsAreGreatest, OwnLabelsBoundWalks};

/// Labels that ask enough bound the cost of each walk from the entry that keeps the head bounds.
pub fn labels_bound_walks()
    ensures { LabelsBoundWalks }
{}

/// Labels that are each what some edge asks are the cost of a walk that keeps the head bounds.
pub fn chosen_labels_are_attained()
    ensures { ChosenLabelsAreAttained }
{}

/// Labels that do both say the greatest cost.
pub fn chosen_labels_are_greatest()
    ensures { ChosenLabelsAreGreatest }
{}

/// Inside a body the loops are those of the graph of its nodes, entered at its head; so what holds of walks
/// from the entry holds of walks inside the body from its head.
pub fn loops_inside_are_loops()
    ensures { LoopsInsideAreLoops }
{}

/// Labels of the walks inside one body, chosen likewise, say a loop's own greatest cost.
pub fn own_labels_are_greatest()
    ensures { OwnLabelsAreGreatest }
{}

/// Each collapsed walk stands for a walk that keeps the head bounds, in which each loop's turn is repeated as often
/// as its bound allows, and says what it costs.
pub fn collapsed_walks_expand()
    ensures { CollapsedWalksExpand }
{}

/// Labels of the walks inside one body that ask enough bound the cost of each walk inside it from its head.
pub fn own_labels_bound_walks()
    ensures { OwnLabelsBoundWalks }
{}
