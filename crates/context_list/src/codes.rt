//! Contexts as lists of numbers, which have an order.
ghost use Rattle.std.specs.Prelude.{◌≡◌, ◌++◌, IfOk, map, pos};
ghost use Rattle.context_list.specs.Code.{args_code, code_of, context_code, value_code};

use bt_base::Want;
use std::alloc::Global;
use value_lattice::Value;
use wcet_report::Context;

/// Appends words.
fn put_words(code: &mut Vec<i64>, words: &[u32]) -> Result<(), Want>
    ensures { IfOk result (λ _. code.new.items ≡ code.old.items ++ map pos words.now) }
{
    for word in words {
        code.push(i64::from(*word))?;
    }
    Ok(())
}

/// Appends the numbers of a value: its kind, and its words with an end behind them, or the two ends of its range.
fn put_value(code: &mut Vec<i64>, value: &Value) -> Result<(), Want>
    ensures { IfOk result (λ _. code.new.items ≡ code.old.items ++ value_code value.now) }
{
    match value {
        Value::Words(words) => {
            code.push(0)?;
            put_words(code, words.members())?;
            code.push(-1)?;
        }
        Value::Range { lo, hi } => {
            code.push(1)?;
            code.push(i64::from(*lo))?;
            code.push(i64::from(*hi))?;
        }
        Value::Ret => code.push(2)?,
    }
    Ok(())
}

/// Appends the numbers of values.
fn put_values(code: &mut Vec<i64>, values: &[Value]) -> Result<(), Want>
    ensures { IfOk result (λ _. code.new.items ≡ code.old.items ++ args_code values.now) }
{
    for value in values {
        put_value(code, value)?;
    }
    Ok(())
}

/// Appends the numbers of a context: none for a plain one.
fn put_context(code: &mut Vec<i64>, context: &Context) -> Result<(), Want>
    ensures { IfOk result (λ _. code.new.items ≡ code.old.items ++ context_code context.now) }
{
    match context {
        Context::Plain => Ok(()),
        Context::With(args) => {
            code.push(3)?;
            put_values(code, &args.list)
        }
    }
}

/// The numbers that tell a subprogram and its context apart from all others.
pub(crate) fn code_of(alloc: Global, sub: u32, context: &Context) -> Result<Vec<i64>, Want>
    ensures { IfOk result (λ code. code.items ≡ code_of (sub, context.now)) }
{
    let mut code = Vec::new(alloc);
    code.push(i64::from(sub))?;
    put_context(&mut code, context)?;
    Ok(code)
}
