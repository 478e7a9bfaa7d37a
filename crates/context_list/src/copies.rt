//! Copies of arguments and contexts.
ghost use Rattle.std.specs.Prelude.{◌≡◌, IfOk};

use abs_state::Args;
use bt_base::Want;
use std::alloc::Global;
use wcet_report::Context;

/// The same arguments.
pub fn copy_args(alloc: Global, args: &Args) -> Result<Args, Want>
    ensures { IfOk result (λ copy. copy ≡ args.now) }
{
    let mut list = Vec::with_capacity(alloc, args.list.len())?;
    for value in &args.list {
        list.push(value.copy(alloc)?)?;
    }
    Ok(Args { list })
}

/// The same context.
pub fn copy_context(alloc: Global, context: &Context) -> Result<Context, Want>
    ensures { IfOk result (λ copy. copy ≡ context.now) }
{
    match context {
        Context::Plain => Ok(Context::Plain),
        Context::With(args) => Ok(Context::With(copy_args(alloc, args)?)),
    }
}
