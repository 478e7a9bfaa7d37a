//! The reader of executables for SPARC in 32 bits (System V ABI, "Object Files", and its SPARC processor
//! supplement): the sections that are in memory, what stands at each address, and the functions.
#![tactic(auto)]

mod abi;
mod entry;
mod extent;
mod fields;
mod functions;
mod headers;
mod image;
mod labels;
mod laws;
mod loaded;
mod loading;
mod names;
mod next_code;
mod refusal;
mod rising;
mod section;
mod sections;
mod strings;
mod symbol;
mod symbols;
mod values;

pub use image::Image;
pub use laws::{bytes_do_not_mix, code_is_in_memory, code_is_read_only, words_are_read_only};
pub use refusal::{Counted, ImageRefusal};
