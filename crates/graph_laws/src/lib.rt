//! Laws over graphs: walks that keep head bounds, labels that show what they cost, counters and nests.
//!
//! Graphs and bodies are tests of edges and nodes. Each law is the contract of a function that does nothing, so
//! that the crates above cite it; `is_walk` decides whether a list of nodes is a walk of a graph.
#![tactic(auto)]

mod counter_laws;
mod forward_laws;
mod label_laws;
mod nest_laws;
mod scope_laws;
mod walking;
mod worked_graphs;

pub use counter_laws::{
    chosen_sums_are_attained, counter_bounds_passes, falling_counter_bounds_passes,
    falling_sums_bound_turns, forward_sums_fall, forward_sums_rise, rising_sums_bound_turns,
};
pub use forward_laws::{
    equal_loops_are_loops, heads_have_turns, prefixes_spend_less, reached_are_reached_forward,
    sets_have_ends, spent_adds_up, walks_back_stay, walks_turn,
};
pub use label_laws::{
    chosen_labels_are_attained, chosen_labels_are_greatest, collapsed_walks_expand,
    labels_bound_walks, loops_inside_are_loops, own_labels_are_greatest, own_labels_bound_walks,
};
pub use nest_laws::{
    nest_is_one, nests_are_loops, nests_unwind, parts_inside_are_parts, reached_are_entered,
    two_entries_have_no_nest,
};
pub use scope_laws::{
    body_is_scope, chain_is_one, first_entries_are_one, first_entries_have_no_nest, scope_is_one,
    scopes_keep_parts, whole_graph_is_scope,
};
pub use walking::{has_edge, is_walk};
pub use worked_graphs::{
    collapsed_walk_costs_fourteen, counter_meets_its_bound, falling_counter_meets_its_bound,
    inner_body_is_entered, inner_loop_costs_six, inner_loop_is_a_loop, inner_loop_is_a_part,
    loop_of_two_costs_six, loop_of_two_has_labels, nested_loops_are_loops,
    nested_loops_cost_fourteen, nested_loops_have_a_nest, nested_loops_have_one_nest,
    nested_loops_unwind, nested_sums_fall, nested_sums_rise, two_ways_have_no_nest,
};
