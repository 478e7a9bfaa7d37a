//! The thresholds that come with the arguments of a context, and the state at its entry.
ghost use Rattle.std.specs.Prelude.{◌≡◌, ◌++◌, OnOk, IfOk};
ghost use Rattle.std.specs.Int.{w32, cast_signed};
ghost use Rattle.std.specs.List.{flat_map};
ghost use Rattle.code_thresholds.specs.Number.{above, below};
ghost use Rattle.context_outcomes.specs.Arguments.{near, numbers_in};
ghost use Rattle.value_lattice.specs.Thresholds.{widen};

use bt_base::Want;
use std::alloc::Global;
use value_lattice::{Thresholds, Value};

/// The number below another, where it fits 32 bits.
fn push_below(list: &mut Vec<i32>, n: i32) -> Result<(), Want>
    ensures { OnOk result (list.new.items ≡ list.old.items ++ below n) }
{
    if n > i32::MIN {
        list.push(n - 1)?;
    }
    Ok(())
}

/// The number above another, where it fits 32 bits.
fn push_above(list: &mut Vec<i32>, n: i32) -> Result<(), Want>
    ensures { OnOk result (list.new.items ≡ list.old.items ++ above n) }
{
    if n < i32::MAX {
        list.push(n + 1)?;
    }
    Ok(())
}

/// A number and its neighbours.
fn push_near(list: &mut Vec<i32>, n: i32) -> Result<(), Want>
    ensures { OnOk result (list.new.items ≡ list.old.items ++ near n) }
{
    push_below(list, n)?;
    list.push(n)?;
    push_above(list, n)
}

/// Words, read with sign, and their neighbours.
fn push_words(list: &mut Vec<i32>, words: &[u32]) -> Result<(), Want>
    ensures { OnOk result (list.new.items ≡ list.old.items ++ flat_map (λ w. near (cast_signed w32 w)) words.now) }
{
    for word in words {
        push_near(list, word.cast_signed())?;
    }
    Ok(())
}

/// The numbers of a value: those at and beside the words of a set of at most four, and the ends of a range.
fn push_numbers(list: &mut Vec<i32>, value: &Value) -> Result<(), Want>
    ensures { OnOk result (list.new.items ≡ list.old.items ++ numbers_in value.now) }
{
    match value {
        Value::Words(words) => {
            let members = words.members();
            if 4 < members.len() {
                Ok(())
            } else {
                push_words(list, members)
            }
        }
        Value::Range { lo, hi } => {
            list.push(*lo)?;
            list.push(*hi)?;
            Ok(())
        }
        Value::Ret => Ok(()),
    }
}

/// The numbers of the arguments of a context.
fn numbers_of(alloc: Global, args: &[Value]) -> Result<Vec<i32>, Want>
    ensures { IfOk result (λ list. list.items ≡ flat_map numbers_in args.now) }
{
    let mut list = Vec::new(alloc);
    for value in args {
        push_numbers(&mut list, value)?;
    }
    Ok(list)
}

/// The thresholds of a context with these arguments: those of the program, the ends of each argument that is a range, and
/// the words, read with sign, of each that is a set of at most four, with their neighbours.
pub fn thresholds_with(
    alloc: Global,
    thresholds: &Thresholds,
    args: &[Value],
) -> Result<Thresholds, Want>
    ensures { IfOk result (λ t. t ≡ widen thresholds.now (flat_map numbers_in args.now)) }
{
    let numbers = numbers_of(alloc, args)?;
    thresholds.widened(alloc, &numbers)
}
