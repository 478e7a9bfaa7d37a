use abs_state::Args;

/// What is known of the arguments of a call.
#[derive(Debug, Drop)]
pub enum Context {
    /// What holds of the arguments of every call, and enough for a bound.
    Plain,
    /// These values, of %o0 to %o5 and %g1 to %g7.
    With(Args),
}
