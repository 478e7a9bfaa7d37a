//! The functions of a file, with their names.
ghost use Rattle.std.specs.Prelude.{◌≡◌, None, IfOk};
ghost use Rattle.std.specs.BTreeMap.{IsOrdered, keys};
ghost use Rattle.std.specs.Ordering.{nat_cmp};
ghost use Rattle.std.specs.Option.{option_copied};
ghost use Rattle.bt_image.specs.Checked.{IsChecked};
ghost use Rattle.bt_image.specs.Extent.{Rise};
ghost use Rattle.bt_image.specs.File.{section_count};
ghost use Rattle.bt_image.specs.Loaded.{AreLoaded};
ghost use Rattle.bt_image.specs.Names.{AreNames};
ghost use Rattle.bt_image.specs.Refusal.{IsStep, symbols_refusal, limits_refusal};
ghost use Rattle.bt_image.specs.Symbol.{symbol_count, symbol_strings, name_of};

use crate::abi::SYM_SIZE;
use crate::names::{Name, names};
use crate::refusal::{Counted, ImageRefusal};
use crate::section::Section;
use crate::strings::name_at;
use crate::symbols::{strings, table_of};
use std::alloc::{AllocError, Global};
use std::collections::BTreeMap;

/// How many symbols there may be.
const MOST_SYMBOLS: u32 = 262_144;

/// How many functions there may be.
const MOST_FUNCTIONS: usize = 16_384;

/// The keys of the map.
fn keys_of(alloc: Global, names: &BTreeMap<u32, Name>) -> Result<Vec<u32>, AllocError>
    ensures { IfOk result (λ keys_found. keys_found.items ≡ keys names.now) }
{
    names.keys().copied().collect(alloc)
}

/// The addresses of the functions, rising.
pub fn addresses(alloc: Global, names: &BTreeMap<u32, Name>) -> Result<Vec<u32>, AllocError>
    requires { IsOrdered nat_cmp names.now }
    ensures value { IfOk result (λ addresses. addresses.items ≡ keys names.now) }
    ensures rise { IfOk result (λ addresses. Rise addresses.items) }
{
    let addresses = keys_of(alloc, names)?;
    Ok(addresses)
}

/// The strings of the symbols' names of a file that passed the checks.
pub fn checked_strings(file: &[u8], number: Option<u16>) -> &[u8]
    requires checked { IsChecked file.now number }
    requires sound { symbols_refusal file.now ≡ None }
    ensures { result.now ≡ symbol_strings file.now }
{
    strings(file, number)
}

/// The names of all functions of the file, where there aren't too many symbols and functions.
#[tactic(auto, unfolding(crate::specs::Refusal::limits_refusal))]
pub fn limited_names(
    alloc: Global,
    file: &[u8],
    loaded: &[Section],
    number: Option<u16>,
) -> Result<BTreeMap<u32, Name>, ImageRefusal>
    requires checked { IsChecked file.now number }
    requires loaded { AreLoaded file.now (section_count file.now) loaded.now }
    requires sound { symbols_refusal file.now ≡ None }
    ensures step { IsStep (limits_refusal file.now) result }
    ensures names { IfOk result (λ names. AreNames file.now (symbol_strings file.now) (symbol_count file.now) names) }
    ensures ordered { IfOk result (λ names. IsOrdered nat_cmp names) }
{
    let table = table_of(file, number);
    let symbols = table.size / SYM_SIZE;
    if symbols > MOST_SYMBOLS {
        return Err(ImageRefusal::Limit {
            what: Counted::Symbols,
            count: u64::from(symbols),
        });
    }
    let names = names(alloc, file, loaded, &table, checked_strings(file, number))?;
    let functions = names.len();
    if functions > MOST_FUNCTIONS {
        return Err(ImageRefusal::Limit {
            what: Counted::Functions,
            count: functions as u64,
        });
    }
    Ok(names)
}

/// The name of the function at an address.
#[tactic(auto, unfolding(crate::specs::Symbol::name_of))]
pub fn name_in<'a>(
    file: &'a [u8],
    number: Option<u16>,
    names: &BTreeMap<u32, Name>,
    entry: u32,
) -> Option<&'a [u8]>
    requires checked { IsChecked file.now number }
    requires sound { symbols_refusal file.now ≡ None }
    requires names { AreNames file.now (symbol_strings file.now) (symbol_count file.now) names.now }
    ensures { option_copied result ≡ name_of file.now entry }
{
    let strings = checked_strings(file, number);
    match names.get(&entry) {
        None => None,
        Some(name) => Some(name_at(strings, name.at as usize)),
    }
}
