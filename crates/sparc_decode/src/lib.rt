//! The instructions of SPARC Version 7, and the multiplications and divisions of Version 8: what each word
//! stands for, which registers it reads, writes and loads, and by which class it is charged (SPARC Architecture Manual Version 7, "Instructions" and "Opcodes").
#![tactic(auto)]

mod cost_class;
mod decoding;
mod fields;
mod instruction;
mod laws;
mod registers;

pub use cost_class::{CostClass, class};
pub use decoding::decode;
pub use instruction::{AluOp, FloatKind, Instr, LoadKind, Second, ShiftOp, StoreKind, TaggedOp};
pub use laws::{
    each_word_stands_for_one, fields_are_in_range, no_selector_stands_twice, sets_name_registers,
};
pub use registers::{loaded, reads, writes};
