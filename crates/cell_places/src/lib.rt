//! Which registers the cells of a frame are: by the window of its entry, and by their height above the invalid window.
//! Each law is the contract of a function that does nothing, so that the crates above cite it.
#![tactic(auto)]

mod laws;

pub use laws::{
    callees_cells_are_callers, cells_are_apart, cells_are_between, places_are_altitudes,
    registers_are_cells, registers_hold_contents,
};
