//! Laws of texts of graphs: each is the contract of a function that does nothing.
ghost use Rattle.graph_text.specs.Laws.{GraphTextIsOne, GraphTextHasPlaces, GraphTextHasSteps, GraphTextHasCalls, GraphTextHasOpens};

/// Keys have at most one text.
pub fn graph_text_is_one()
    ensures { GraphTextIsOne }
{}

/// The line of each program point, and of its subprogram, stands in the text.
pub fn graph_text_has_places()
    ensures { GraphTextHasPlaces }
{}

/// The line of each step stands in the text.
pub fn graph_text_has_steps()
    ensures { GraphTextHasSteps }
{}

/// The line of each call stands in the text.
pub fn graph_text_has_calls()
    ensures { GraphTextHasCalls }
{}

/// The line of each open point stands in the text.
pub fn graph_text_has_opens()
    ensures { GraphTextHasOpens }
{}
