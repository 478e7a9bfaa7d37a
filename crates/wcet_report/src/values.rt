ghost use Rattle.std.specs.Prelude.{◌≡◌, ◌++◌, ◌^◌, ℕ, nat_le, nat_lt, IfOk};
ghost use Rattle.std.specs.List.{filter};
ghost use Rattle.wcet_report.specs.Value.{by_sign, parted, value_text, is_any as is_any_so};

use bt_base::{Want, put_signed};
use std::alloc::Global;
use value_lattice::Value;

/// Appends the words with the sign bit.
fn push_negative(list: &mut Vec<u32>, words: &[u32]) -> Result<(), Want>
    ensures { IfOk result (λ _. list.new.items ≡ list.old.items ++ filter (λ w. nat_le (2 ^ 31) w) words.now) }
{
    for word in words {
        if *word >= 0x8000_0000 {
            list.push(*word)?;
        }
    }
    Ok(())
}

/// Appends the words without the sign bit.
fn push_others(list: &mut Vec<u32>, words: &[u32]) -> Result<(), Want>
    ensures { IfOk result (λ _. list.new.items ≡ list.old.items ++ filter (λ w. nat_lt w (2 ^ 31)) words.now) }
{
    for word in words {
        if *word < 0x8000_0000 {
            list.push(*word)?;
        }
    }
    Ok(())
}

/// Appends words read with sign: the first behind `before`, each other behind a comma.
fn put_parted(text: &mut Vec<u8>, words: &[u32], before: u8) -> Result<(), Want>
    ensures { IfOk result (λ _. text.new.items ≡ text.old.items ++ parted before words.now) }
{
    let mut separator = before;
    for word in words {
        text.push(separator)?;
        put_signed(text, i64::from(word.cast_signed()))?;
        separator = b',';
    }
    Ok(())
}

/// Appends a set of words by rising sign.
fn put_words(alloc: Global, text: &mut Vec<u8>, words: &[u32]) -> Result<(), Want>
    ensures { IfOk result (λ _. text.new.items ≡ text.old.items ++ parted 123 (by_sign words.now)) }
{
    let mut list = Vec::with_capacity(alloc, words.len())?;
    push_negative(&mut list, words)?;
    push_others(&mut list, words)?;
    put_parted(text, &list, b'{')
}

/// Appends a value.
#[tactic(auto, unfolding(crate::specs::Value::value_text))]
pub(crate) fn put_value(alloc: Global, text: &mut Vec<u8>, value: &Value) -> Result<(), Want>
    ensures { IfOk result (λ _. text.new.items ≡ text.old.items ++ value_text value.now) }
{
    match value {
        Value::Words(words) => {
            put_words(alloc, text, words.members())?;
            text.push(b'}')?;
            Ok(())
        }
        Value::Range { lo, hi } => {
            put_signed(text, i64::from(*lo))?;
            text.extend_from_slice(b"..")?;
            put_signed(text, i64::from(*hi))
        }
        Value::Ret => {
            text.extend_from_slice(b"ret")?;
            Ok(())
        }
    }
}

/// Whether a value is the range of all words.
pub(crate) fn is_any(value: &Value) -> bool
    ensures { result ≡ is_any_so value.now }
{
    match value {
        Value::Range { lo, hi } => *lo == i32::MIN && *hi == i32::MAX,
        _ => false,
    }
}
