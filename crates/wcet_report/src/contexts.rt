ghost use Rattle.std.specs.Prelude.{◌≡◌, ◌++◌, ◌<◌, [], IfOk, slice_index_or};
ghost use Rattle.wcet_report.specs.Context.{argument_names, argument_words, known, known_or_any, context_text, are_any as are_any_so, is_open as is_open_so};
ghost use Rattle.wcet_report.specs.Line.{spaced};

use crate::context::Context;
use crate::lines::put_word;
use crate::values::{is_any, put_value};
use bt_base::Want;
use std::alloc::Global;
use value_lattice::Value;

/// The register of an argument.
fn argument_name(k: usize) -> [u8; 3]
    requires { k < 13 }
    ensures { result ≡ slice_index_or argument_names k [] }
{
    match k {
        0 => *b"%o0",
        1 => *b"%o1",
        2 => *b"%o2",
        3 => *b"%o3",
        4 => *b"%o4",
        5 => *b"%o5",
        6 => *b"%g1",
        7 => *b"%g2",
        8 => *b"%g3",
        9 => *b"%g4",
        10 => *b"%g5",
        11 => *b"%g6",
        _ => *b"%g7",
    }
}

/// Whether nothing is known of any argument.
fn are_any(values: &[Value]) -> bool
    ensures { result ≡ are_any_so values.now }
{
    for value in values {
        if !is_any(value) {
            return false;
        }
    }
    true
}

/// Appends an argument behind a space, where something is known of it.
fn put_argument(alloc: Global, text: &mut Vec<u8>, k: usize, value: &Value) -> Result<(), Want>
    requires { k < 13 }
    ensures { IfOk result (λ _. text.new.items
        ≡ text.old.items ++ spaced (argument_words (slice_index_or argument_names k []) value.now)) }
{
    if is_any(value) {
        return Ok(());
    }
    put_word(text, &argument_name(k))?;
    text.push(b'=')?;
    put_value(alloc, text, value)?;
    Ok(())
}

/// Appends each argument of which something is known, behind a space.
fn put_known(alloc: Global, text: &mut Vec<u8>, values: &[Value]) -> Result<(), Want>
    ensures { IfOk result (λ _. text.new.items ≡ text.old.items ++ spaced (known argument_names values.now)) }
{
    for k in 0..values.len().min(13) {
        put_argument(alloc, text, k, &values[k])?;
    }
    Ok(())
}

/// Appends what is known of the arguments, behind spaces.
fn put_arguments(alloc: Global, text: &mut Vec<u8>, values: &[Value]) -> Result<(), Want>
    ensures { IfOk result (λ _. text.new.items ≡ text.old.items ++ spaced (known_or_any (known argument_names values.now))) }
{
    let before = text.len();
    put_known(alloc, text, values)?;
    if text.len() == before {
        return put_word(text, b"any");
    }
    Ok(())
}

/// Appends the text of a context.
#[tactic(auto, unfolding(crate::specs::Context::context_text))]
pub(crate) fn put_context(alloc: Global, text: &mut Vec<u8>, context: &Context) -> Result<(), Want>
    ensures { IfOk result (λ _. text.new.items ≡ text.old.items ++ context_text context.now) }
{
    match context {
        Context::Plain => {
            text.extend_from_slice(b"plain")?;
            Ok(())
        }
        Context::With(args) => {
            text.extend_from_slice(b"args")?;
            put_arguments(alloc, text, &args.list)?;
            Ok(())
        }
    }
}

/// Whether a context is one in which nothing is known of the arguments.
pub(crate) fn is_open(context: &Context) -> bool
    ensures { result ≡ is_open_so context.now }
{
    match context {
        Context::Plain => true,
        Context::With(args) => are_any(&args.list),
    }
}
