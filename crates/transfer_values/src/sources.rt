ghost use Rattle.std.specs.Prelude.{◌≡◌, ◌<◌, true, IfOk, IfSome, filter, length};
ghost use Rattle.std.specs.Option.{option_map};
ghost use Rattle.value_lattice.specs.Order.{rank_of};
ghost use Rattle.value_lattice.specs.Least.{top, span};
ghost use Rattle.value_lattice.specs.Value.{IsOver, IsValue};
ghost use Rattle.abs_state.specs.State.{is_state_over};
ghost use Rattle.transfer_values.specs.Source.{is_aligned, words_at, covered, loaded_from, loaded, ranged, source_value};

use crate::operands::applied;
use abs_state::AbsState;
use bt_base::Want;
use bt_image::Image;
use std::alloc::Global;
use transfer_rules::Source;
use value_lattice::{Thresholds, Value, cover, span};
use value_ops::Op;

/// Those of some addresses at which a word may stand: the multiples of 4.
fn aligned(alloc: Global, addresses: &[u32]) -> Result<Vec<u32>, Want>
    ensures { IfOk result (λ v. v.items ≡ filter is_aligned addresses.now) }
{
    let mut kept = Vec::new(alloc);
    for a in addresses {
        if *a % 4 == 0 {
            kept.push(*a)?;
        }
    }
    Ok(kept)
}

/// The words at some addresses, where each of them can be read and no run writes it.
fn words_at(alloc: Global, addresses: &[u32], image: &Image) -> Result<Option<Vec<u32>>, Want>
    ensures { IfOk result (λ r. option_map (λ v. v.items) r ≡ words_at image.now addresses.now) }
{
    let mut words = Vec::new(alloc);
    for a in addresses {
        match image.word_at(*a) {
            Some(word) => words.push(word)?,
            None => return Ok(None),
        }
    }
    Ok(Some(words))
}

/// The least value that has the words at some addresses, of which there is one at least.
fn covered(alloc: Global, t: &Thresholds, image: &Image, addresses: &[u32]) -> Result<Value, Want>
    requires { 0 < length addresses.now }
    ensures { IfOk result (λ v. v ≡ covered t.now (words_at image.now addresses.now)) }
{
    match words_at(alloc, addresses, image)? {
        Some(words) => cover(alloc, words.as_slice(), t),
        None => Ok(Value::top()),
    }
}

/// The value of the word at one of some addresses. None exactly where there are none.
fn loaded_from(
    alloc: Global,
    t: &Thresholds,
    image: &Image,
    addresses: &[u32],
) -> Result<Option<Value>, Want>
    ensures { IfOk result (λ r. r ≡ loaded_from t.now image.now addresses.now) }
{
    if addresses.is_empty() {
        return Ok(None);
    }
    Ok(Some(covered(alloc, t, image, addresses)?))
}

/// The value of the word at an address. None exactly where no address is a multiple of 4.
fn loaded(
    alloc: Global,
    t: &Thresholds,
    image: &Image,
    address: &Value,
) -> Result<Option<Value>, Want>
    ensures { IfOk result (λ r. r ≡ loaded t.now image.now address.now) }
{
    match address {
        Value::Words(words) => {
            let addresses = aligned(alloc, words.members())?;
            loaded_from(alloc, t, image, addresses.as_slice())
        }
        Value::Range { .. } => Ok(Some(Value::top())),
        Value::Ret => Ok(Some(Value::top())),
    }
}

/// The least value that has all words which, read with sign, are from `lo` to `hi`; any word where there are none.
fn ranged(alloc: Global, t: &Thresholds, lo: i32, hi: i32) -> Result<Value, Want>
    ensures { IfOk result (λ v. v ≡ ranged t.now lo hi) }
{
    if lo <= hi {
        span(alloc, lo, hi, t)
    } else {
        Ok(Value::top())
    }
}

/// What a step writes, of the state before it. None exactly where no run goes on.
pub(crate) fn source_value(
    alloc: Global,
    t: &Thresholds,
    image: &Image,
    state: &AbsState,
    source: Source,
) -> Result<Option<Value>, Want>
    requires { is_state_over t.now state.now ≡ true }
    ensures { IfOk result (λ r. r ≡ source_value t.now image.now state.now source) }
{
    match source {
        Source::Anything => Ok(Some(Value::top())),
        Source::Exactly(w) => Ok(Some(Value::word(w)?)),
        Source::Ranged { lo, hi } => Ok(Some(ranged(alloc, t, lo, hi)?)),
        Source::Applied { op, left, right } => {
            Ok(Some(applied(alloc, t, op, state, left, right)?))
        }
        Source::Loaded { left, right } => {
            let address = applied(alloc, t, Op::Add, state, left, right)?;
            loaded(alloc, t, image, &address)
        }
    }
}
