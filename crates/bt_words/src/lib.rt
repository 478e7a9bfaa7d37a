//! What the words of a call of boundt ask for.
#![tactic(auto)]

mod command;
mod laws;
mod request;

pub use laws::{
    commands_come_first, faultless_words_ask, functions_are_asked, one_name_asks, three_names_ask,
    workers_are_asked,
};
pub use request::{NoRequest, Request, request_of};
