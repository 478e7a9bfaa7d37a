//! Laws of due graphs and of outcomes: each is the contract of a function that does nothing.
ghost use Rattle.bound_task.specs.Laws.{
  FirstUnmatchedIsOne,
  GraphIsOne,
  GraphTextIsOneOf,
  OutcomesAreFew,
  OutcomesAreMatched,
  OutcomesHoldOfRuns,
  TooBigHasNoGraph,
  TooManyAreMatched,
};

/// A program has one due graph.
pub fn graph_is_one()
    ensures { GraphIsOne }
{}

/// A program has one text of its due graph.
pub fn graph_text_is_one_of()
    ensures { GraphTextIsOneOf }
{}

/// A due graph that is within the limit, and one that passes it, exclude each other.
pub fn too_big_has_no_graph()
    ensures { TooBigHasNoGraph }
{}

/// What outcomes of a program say of loops and cycles holds of its runs.
pub fn outcomes_hold()
    ensures { OutcomesHoldOfRuns }
{}

/// A program that has outcomes has no asserted loop that isn't matched, and needs no more contexts than can be told; and where
/// too many contexts are needed each asserted loop is matched.
pub fn answers_exclude_each_other()
    ensures matched { OutcomesAreMatched }
    ensures few { OutcomesAreFew }
    ensures contexts { TooManyAreMatched }
{}

/// A program has one first line of an asserted loop that isn't matched.
pub fn first_unmatched_is_one()
    ensures { FirstUnmatchedIsOne }
{}
