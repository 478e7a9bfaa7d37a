//! The table of cycles: what an instruction of each class costs, and how it is read from a text.
#![tactic(auto)]

mod classes;
mod laws;
mod reading;
mod refusal;
mod table;

pub use classes::class_name;
pub use laws::{faults_are_first, tables_are_whole};
pub use refusal::{CycleRefusal, Why};
pub use table::Cycles;
