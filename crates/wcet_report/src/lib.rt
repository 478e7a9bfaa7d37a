//! The report: the bound of each root, and for each context its bound with its loops and how each is bounded, or the
//! reasons why there is none.
#![tactic(auto)]

mod context;
mod contexts;
mod heads;
mod laws;
mod lines;
mod loops;
mod nodes;
mod outcome;
mod reason;
mod reasons;
mod reporting;
mod roots;
mod sorting;
mod values;

pub use context::Context;
pub use laws::{
    report_has_each, report_has_loops, report_has_reasons, report_has_roots, report_is_one,
    report_tells,
};
pub use lines::{put_address, put_function, put_word};
pub use loops::{By, LoopOutcome, Loops};
pub use outcome::{Outcome, OutcomeList, Outcomes, Roots};
pub use reason::{Reason, Reasons};
pub use reasons::put_point;
pub use reporting::text;
