//! Outcomes by hand.
ghost use Rattle.std.specs.Prelude.{◌<◌, length};

use abs_state::{Args, HeadBound, Next, Place};
use bt_base::Want;
use std::alloc::Global;
use value_lattice::{Thresholds, Value, cover};
use wcet_report::{By, Context, LoopOutcome, Loops, Outcome, Reason, Reasons};

/// A program point whose next word is the one behind it.
pub(crate) fn at(sub: u32, pc: u32, depth: u8) -> Place {
    Place {
        sub,
        pc,
        next: Next::At(pc.wrapping_add(4)),
        depth,
    }
}

/// The value of words, of which there are some.
pub(crate) fn words(alloc: Global, list: &[u32]) -> Result<Value, Want>
    requires { 0 < length list.now }
{
    let thresholds = Thresholds::make(alloc, &[])?;
    cover(alloc, list, &thresholds)
}

/// Appends values of which nothing is known.
fn put_tops(list: &mut Vec<Value>, count: u32) -> Result<(), Want> {
    for _ in 0..count {
        list.push(Value::top())?;
    }
    Ok(())
}

/// A context in which %o0, %o5, %g1 and %g7 have these values, and nothing is known of the other arguments.
pub(crate) fn known(
    alloc: Global,
    o0: Value,
    o5: Value,
    g1: Value,
    g7: Value,
) -> Result<Context, Want> {
    let mut list = Vec::with_capacity(alloc, 13)?;
    list.push(o0)?;
    put_tops(&mut list, 4)?;
    list.push(o5)?;
    list.push(g1)?;
    put_tops(&mut list, 5)?;
    list.push(g7)?;
    Ok(Context::With(Args { list }))
}

/// A context in which nothing is known of the arguments.
pub(crate) fn any(alloc: Global) -> Result<Context, Want> {
    known(
        alloc,
        Value::top(),
        Value::top(),
        Value::top(),
        Value::top(),
    )
}

/// A context in which %o0 is a word, and nothing is known of the other arguments.
pub(crate) fn first(alloc: Global, word: u32) -> Result<Context, Want> {
    let value = words(alloc, &[word])?;
    known(alloc, value, Value::top(), Value::top(), Value::top())
}

/// An outcome with a bound.
pub(crate) fn bounded(
    alloc: Global,
    sub: u32,
    context: Context,
    loops: &[LoopOutcome],
    bound: u64,
) -> Result<Outcome, Want> {
    let loops = Vec::from_slice(alloc, loops)?;
    Ok(Outcome {
        sub,
        context,
        loops: Loops::new(loops),
        reasons: Reasons::new(Vec::new(alloc)),
        bound: Some(bound),
    })
}

/// The outcome of a plain context without loops.
pub(crate) fn plain(alloc: Global, sub: u32, bound: u64) -> Result<Outcome, Want> {
    bounded(alloc, sub, Context::Plain, &[], bound)
}

/// An outcome with nothing known of the arguments, and the reasons why there is no bound.
pub(crate) fn unbounded(
    alloc: Global,
    sub: u32,
    loops: &[LoopOutcome],
    reasons: &[Reason],
) -> Result<Outcome, Want> {
    let context = any(alloc)?;
    let loops = Vec::from_slice(alloc, loops)?;
    let reasons = Vec::from_slice(alloc, reasons)?;
    Ok(Outcome {
        sub,
        context,
        loops: Loops::new(loops),
        reasons: Reasons::new(reasons),
        bound: None,
    })
}

/// A loop by a counter that goes from `lo` to `hi`.
pub(crate) fn counted(
    head: Place,
    cell: u8,
    step: i64,
    lo: i32,
    hi: i32,
    passes: u64,
) -> LoopOutcome {
    LoopOutcome {
        head,
        by: By::Counter(HeadBound {
            cell,
            step,
            lo,
            hi,
            passes,
        }),
    }
}

/// A loop by an assertion.
pub(crate) fn asserted(head: Place, count: u64) -> LoopOutcome {
    LoopOutcome {
        head,
        by: By::Asserted(count),
    }
}

/// A loop without a bound.
pub(crate) fn endless(head: Place) -> LoopOutcome {
    LoopOutcome {
        head,
        by: By::Nothing,
    }
}
