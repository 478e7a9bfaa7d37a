//! The base of most crates of boundt: the outside as two traits, its implementations in memory and over the
//! system, reading and writing of whole texts, numbers in bytes and in text, lists that rise, and graphs.
#![tactic(auto)]

mod faults;
mod file_shelf;
mod graph;
mod memory_shelf;
mod memory_sink;
mod numbers;
mod out_sink;
mod reading;
mod rising;
mod shelf;
mod sink;
mod texts;
mod trail;
mod writing;

pub use faults::{Failed, Want};
pub use file_shelf::FileShelf;
pub use graph::Graph;
pub use memory_shelf::MemoryShelf;
pub use memory_sink::MemorySink;
pub use numbers::{be16, be32};
pub use out_sink::OutSink;
pub use reading::{ReadRefusal, read_all};
pub use rising::{has, put_in_order};
pub use shelf::{NoFetch, Shelf};
pub use sink::Sink;
pub use texts::{hex8, hex8_text, put_decimal, put_signed};
pub use writing::{Unwritten, write_all};
