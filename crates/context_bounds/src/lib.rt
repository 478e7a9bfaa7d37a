//! One context: what its program points change and cost, and what bounds its loops.
#![tactic(auto)]

mod arguments;
mod changing;
mod choosing;
mod entering;
mod extras;
mod fixing;
mod laws;
mod nodes;
mod owning;
mod reading;
mod spending;
mod states;

pub use arguments::thresholds_with;
pub use changing::change_at;
pub use choosing::{by_of, passes_by};
pub use entering::entered_with;
pub use fixing::summaries_of;
pub use laws::{
    called_are_enough, contexts_are_reached, contexts_are_viewed, contexts_pass, contexts_stand,
    facts_are_known, heads_are_outcomes, lists_are_costs, marks_are_all, own_keys_are_kept,
    views_are_shapes,
};
pub use nodes::costs_of;
pub use owning::own_rows;
pub use states::{changes_of, state_at};
