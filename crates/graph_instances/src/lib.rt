//! The laws of scopes and of walks at small graphs, so that no premise of theirs is empty: each is the contract of a function
//! that does nothing.
#![tactic(auto)]

mod worked_scopes;
mod worked_walks;

pub use worked_scopes::{
    inner_body_keeps_its_part, inner_head_has_one_chain, last_node_has_one_scope,
    nested_loops_are_a_scope, outer_body_is_a_scope, two_ways_are_first_entries,
};
pub use worked_walks::{
    beginnings_spend_less, both_heads_have_turns, inner_walks_stay, last_node_is_an_end,
    last_node_is_reached_forward, other_loops_are_loops, round_the_other_way, through_all_three,
};
