//! The machine: registers in windows, program counters, cycles, and its step (SPARC Architecture Manual
//! Version 7, "Registers" and "Instructions").
#![tactic(auto)]

mod effects;
mod executing;
mod free;
mod laws;
mod machine;
mod memory;
mod straight;
mod trap;

pub use effects::step;
pub use free::Free;
pub use laws::{
    each_step_keeps, globals_are_shared, neighbours_overlap, reads_are_all, registers_are_apart,
    straight_code_is_one, windows_come_back,
};
pub use machine::{Machine, physical};
pub use straight::{Straight, straight_from};
pub use trap::Trap;
