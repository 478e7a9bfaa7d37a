use wcet_report::{Loops, Reasons};

/// What a context comes to.
#[derive(Debug, Drop)]
pub struct Answer {
    /// Its loops, where each is entered at one program point; none where some part is entered at two.
    pub loops: Loops,
    /// Why there is no bound, each reason once, in their order.
    pub reasons: Reasons,
    /// The most cycles that a call spends, where there is no reason against it.
    pub bound: Option<u64>,
}
