use std::marker::Model;
use value_lattice::Value;

/// The argument values of a call: those of %o0 to %o5 and then of %g1 to %g7, 13 in all.
///
/// Contracts see the list.
#[derive(Debug, Drop)]
pub struct Args {
    /// The values, in this order.
    pub list: Vec<Value>,
}

impl Model for Args {
    ghost use Rattle.std.specs.Prelude.{List};
    ghost use Rattle.value_lattice.specs.declared.value.Value.{Value as Known};

    ghost Value = { List Known };

    ghost view = { λ args. args.list.items };
}
