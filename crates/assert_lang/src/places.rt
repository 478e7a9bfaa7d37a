ghost use Rattle.std.specs.Prelude.{◌≡◌, IfOk};
ghost use Rattle.std.specs.List.{list_all};
ghost use Rattle.assert_lang.specs.Spot.{begins_name, goes_on, is_name, plain_spot, offset_spot, spot_of};

use crate::numbers::hex_of;
use crate::{Name, Spot};
use bt_base::Want;
use line_text::cut_at;
use std::alloc::Global;

/// Whether a name may begin with a byte: a letter, `_`, `.` or `$`.
fn begins_name(b: u8) -> bool
    ensures { result ≡ begins_name b }
{
    b.is_ascii_alphabetic() || b == b'_' || b == b'.' || b == b'$'
}

/// Whether a byte may stand in a name behind its first one.
fn goes_on(b: u8) -> bool
    ensures { result ≡ goes_on b }
{
    begins_name(b) || b.is_ascii_digit()
}

/// Whether each byte may stand in a name behind its first one.
fn all_go_on(word: &[u8]) -> bool
    ensures { result ≡ list_all goes_on word.now }
{
    word.iter().all(|b| goes_on(*b))
}

/// Whether a word is a name.
fn is_name(word: &[u8]) -> bool
    ensures { result ≡ is_name word.now }
{
    match word {
        [] => false,
        [first, more @ ..] => begins_name(*first) && all_go_on(more),
    }
}

/// A name of its own.
fn name(alloc: Global, word: &[u8]) -> Result<Name, Want>
    ensures { IfOk result (λ name. name ≡ word.now) }
{
    Ok(Name::new(Vec::from_slice(alloc, word)?))
}

/// The place that a word without a `+` is: a name or an address.
fn plain_spot(alloc: Global, word: &[u8]) -> Result<Option<Spot>, Want>
    ensures { IfOk result (λ spot. spot ≡ plain_spot word.now) }
{
    if is_name(word) {
        let name = name(alloc, word)?;
        return Ok(Some(Spot::Name(name)));
    }
    match hex_of(word) {
        None => Ok(None),
        Some(address) => Ok(Some(Spot::Addr(address))),
    }
}

/// The place of a name and an offset.
fn offset_spot(alloc: Global, word: &[u8], offset: &[u8]) -> Result<Option<Spot>, Want>
    ensures { IfOk result (λ spot. spot ≡ offset_spot word.now offset.now) }
{
    if !is_name(word) {
        return Ok(None);
    }
    match hex_of(offset) {
        None => Ok(None),
        Some(offset) => {
            let name = name(alloc, word)?;
            Ok(Some(Spot::Offset(name, offset)))
        }
    }
}

/// The place that a word is, if it is one.
pub fn spot_of(alloc: Global, word: &[u8]) -> Result<Option<Spot>, Want>
    ensures { IfOk result (λ spot. spot ≡ spot_of word.now) }
{
    match cut_at(word, b'+') {
        None => plain_spot(alloc, word),
        Some(cut) => offset_spot(alloc, cut.text, cut.rest),
    }
}
