//! The keys of the facts by subprogram: its program points, steps, calls and open points, each in the order of the keys,
//! the calls inside call cycles, and the register windows that calls need.
#![tactic(auto)]

mod call_graph;
mod cycles;
mod details;
mod laws;
mod lists;
mod needs;
mod numbers;
mod owned;
mod sites;
mod subs;
mod view;

pub use cycles::Cycles;
pub use details::Details;
pub use laws::{
    cycle_calls_lead_back, keys_are_owned, keys_stand_in_lists, needs_are_one, needs_end_at_cycles,
};
pub use lists::{Calling, KeyLists, OpenPoint, Step};
pub use needs::needs_of;
pub use numbers::{graph_of, number_of};
pub use owned::{OfSub, of_sub};
pub use sites::{CallSite, address_of, sites_of};
pub use subs::subs_of;
pub use view::View;
