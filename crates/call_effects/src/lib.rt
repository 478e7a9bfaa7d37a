//! Cells: the registers that the analysis of one subprogram follows, in the window of its entry and in the window
//! below it. Sets of cells, and what a call may write of its caller's cells.
#![tactic(auto)]

mod cells;
mod laws;
mod mask;
mod summary;

pub use cells::cell_of;
pub use laws::{
    calls_write_what_stands, cells_tell_registers_apart, larger_masks_write_more, masks_are_sets,
    masks_stay_masks, summaries_are_joined, summaries_are_ordered, test_decides_masks,
};
pub use mask::{Mask, after_call};
pub use summary::{Summary, stub_summary};
