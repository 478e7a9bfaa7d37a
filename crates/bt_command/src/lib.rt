//! The commands of boundt, over any shelf of files and any sink.
#![tactic(auto)]

mod bounding;
mod counting;
mod generating;
mod graphing;
mod inputs;
mod messages;
mod program;
mod refusal;
mod reporting;
mod running;
mod status;
mod workers;
mod working;

pub use inputs::{ASSERTIONS_LIMIT, IMAGE_LIMIT, TABLE_LIMIT};
pub use running::run_alone;
pub use status::{AssertFault, LimitFault, Status, exit_of};
pub use workers::wanted;
pub use working::run;
