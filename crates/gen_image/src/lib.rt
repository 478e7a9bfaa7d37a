//! An executable for SPARC in 32 bits of any number of functions, made to try the analyser on (System V ABI, "Object
//! Files"): each function counts its argument down to zero, and `main` calls them one after the other.
#![tactic(auto)]

mod abi;
mod calls;
mod code;
mod header;
mod laws;
mod layout;
mod making;
mod names;
mod sections;
mod symbols;
mod words;

pub use laws::{
    calls_lead_to_their_functions, functions_have_their_code, symbols_have_their_names,
};
pub use making::make;
