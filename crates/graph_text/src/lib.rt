//! The text of a graph: for each subprogram whether it returns, and its program points, steps, calls and open points.
#![tactic(auto)]

mod laws;
mod lines;
mod texts;

pub use laws::{
    graph_text_has_calls, graph_text_has_opens, graph_text_has_places, graph_text_has_steps,
    graph_text_is_one,
};
pub use texts::graph_text;
