//! One step of the machine is covered: it does what the act of its place says, and whatever follows by an act, the functions
//! of the analysis leave a state that is right about it. Each law is the contract of a function that does nothing.
#![tactic(auto)]

mod covering;
mod laws;
mod worked_run;

pub use covering::{
    aims_are_resolved, entered_states_cover, met_assertions_are_kept, narrowed_states_cover,
    places_are_written, returned_states_cover, stepped_states_cover, tested_states_cover,
};
pub use laws::{narrowed_states_say, stepped_states_say, steps_do_acts, tested_states_say};
pub use worked_run::worked_run_is_covered;
