//! Assertions bound to the addresses of an executable.
#![tactic(auto)]

mod binding;
mod bodies;
mod body;
mod indexing;
mod laws;
mod parts;
mod placing;
mod refusal;
mod subject;

pub use binding::{Binding, bind};
pub use body::{Addresses, BoundAssertion, BoundBody, LoopLine};
pub use laws::{
    answers_are_all, bindings_are_meant, can_be_met_and_broken, refusals_are_first, stubs_are_those,
};
pub use refusal::BindRefusal;
